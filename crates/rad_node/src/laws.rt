// The law of what a bundle makes.
ghost use Rattle.std.specs.Prelude.{◌≡◌, List, Result};
ghost use Rattle.repo_entries.specs.Items.{Item};
ghost use Rattle.repo_entries.specs.declared.whole.Whole.{Whole};
ghost use Rattle.repo_slice.specs.declared.verdict.Judged.{Judged};
ghost use Rattle.fetch_wire.specs.Bundles.{Bundle};
ghost use Rattle.rad_node.specs.Completeness.{AreEntries};

/// By its verdict a bundle makes exactly one list of entries.
pub fn bundles_make_one_list_of_entries()
    ensures some { (bundle : Bundle) (verdict : Result Judged Whole)
        → (entries : List Item) × AreEntries bundle verdict entries }
    ensures one { (bundle : Bundle) (verdict : Result Judged Whole) (these those : List Item)
        → AreEntries bundle verdict these → AreEntries bundle verdict those → these ≡ those }
{}
