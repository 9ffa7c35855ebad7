// Laws of spellings and links, each the contract of a function that does nothing.
ghost use Rattle.git_object.specs.Laws.{CommitIsReadBack, TagIsReadBack, TreeIsReadBack};
ghost use Rattle.git_object.specs.Laws.{BreakAtOnePlace, IsOneToOne, LinksAreTheValues};
ghost use Rattle.git_object.specs.Laws.{WhatBreaksIsRefused};
ghost use Rattle.git_object.specs.Grammar.{SpellsCommit, SpellsTag, SpellsTree};

/// A tree has one spelling, and bytes spell at most one tree.
pub fn trees_have_one_spelling()
    ensures { IsOneToOne SpellsTree }
{}

/// A commit has one spelling, and bytes spell at most one commit.
pub fn commits_have_one_spelling()
    ensures { IsOneToOne SpellsCommit }
{}

/// A tag has one spelling, and bytes spell at most one tag.
pub fn tags_have_one_spelling()
    ensures { IsOneToOne SpellsTag }
{}

/// What spells a tree is read as its entries, what spells a commit as that commit, and what spells
/// a tag as that tag.
pub fn spellings_are_read_back()
    ensures tree { TreeIsReadBack }
    ensures commit { CommitIsReadBack }
    ensures tag { TagIsReadBack }
{}

/// The links of bytes are those of the value that they spell.
pub fn links_are_the_values()
    ensures { LinksAreTheValues }
{}

/// Bytes that leave the grammar of a kind somewhere are not those of an object of the kind.
pub fn what_breaks_is_refused()
    ensures { WhatBreaksIsRefused }
{}

/// Bytes leave the grammar of a kind at one place at most, so that `Bad` tells the only one.
pub fn one_place()
    ensures { BreakAtOnePlace }
{}
