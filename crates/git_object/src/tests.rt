// Contents that are read, refused and written, and names that Git gave.
use crate::{
    Kind, LinkTo, LinksFault, Mode, NamedEntry, TreeFault, add_links, links, name_of, read_commit,
    read_tag, read_tree, write_commit, write_tag, write_tree,
};
use rad_base::{Bytes, Oid, parse_oid};
use std::alloc::{AllocError, Global};
use std::test::Fail;

const NAME: &[u8] =
    b"\x00\x01\x02\x03\x04\x05\x06\x07\x08\x09\x0a\x0b\x0c\x0d\x0e\x0f\x10\x11\x12\x13";

const DIGITS: &[u8] = b"000102030405060708090a0b0c0d0e0f10111213";

// A content by its template: `%` stands for the 20 bytes of NAME, `#` for their digits.
fn content(alloc: Global, text: &[u8]) -> Result<Vec<u8>, AllocError> {
    let mut bytes = Vec::new(alloc);
    for byte in text {
        match byte {
            b'%' => bytes.extend_from_slice(NAME)?,
            b'#' => bytes.extend_from_slice(DIGITS)?,
            _ => bytes.push(*byte)?,
        }
    }
    Ok(bytes)
}

#[test]
fn contents_are_refused_at_the_place(rt: HostRuntime) -> Result<(), Fail> {
    let tree = content(rt.alloc(), b"100644 a\0%040000 b\0%")?;
    assert_eq!(rt; read_tree(&tree).err().map(|bad| bad.place), Some(29));
    let commit = content(rt.alloc(), b"tree #\nparent #\n\nauthor x")?;
    assert_eq!(rt; read_commit(&commit).err().map(|bad| bad.place), Some(94));
    let tag = content(rt.alloc(), b"object #\ntype commit\ntagger x")?;
    assert_eq!(rt; read_tag(&tag).err().map(|bad| bad.place), Some(60));
    Ok(())
}

// The names of `hello` and a line feed as a blob, a tree, a commit and a tag.
const HELLO: [(Kind, &[u8]); 4] = [
    (Kind::Blob, b"ce013625030ba8dba906f756967f9e9ca394464a"),
    (Kind::Tree, b"149e5b19a5281f340f976d2ba38d4f02d8a6e967"),
    (Kind::Commit, b"656d88de433ec9f9c5d4ed9b2c643844127a0fb4"),
    (Kind::Tag, b"57f49ce8d3d3f00202b6d7e56edbb69bc94b7aa8"),
];

#[test]
fn names_are_those_that_git_gives(rt: HostRuntime) {
    for (kind, name) in HELLO {
        assert_eq!(rt; Some(name_of(kind, b"hello\n")), parse_oid(name));
    }
}

const THIS: Oid = Oid([
    0, 1, 2, 3, 4, 5, 6, 7, 8, 9, 10, 11, 12, 13, 14, 15, 16, 17, 18, 19,
]);

const OTHER: Oid = Oid([255; 20]);

fn named(alloc: Global, mode: Mode, name: &[u8]) -> Result<NamedEntry, Fail> {
    let name = Bytes::copy_of(alloc, name)?;
    Ok(NamedEntry {
        mode,
        name,
        oid: THIS,
    })
}

#[test]
fn trees_are_written_as_read(rt: HostRuntime) -> Result<(), Fail> {
    let mut entries = Vec::new(rt.alloc());
    entries.push(named(rt.alloc(), Mode::File, b"a.c")?)?;
    entries.push(named(rt.alloc(), Mode::Directory, b"a")?)?;
    entries.push(named(rt.alloc(), Mode::File, b"a0")?)?;
    let bytes = write_tree(rt.alloc(), &entries)?;
    let text = content(rt.alloc(), b"100644 a.c\0%40000 a\0%100644 a0\0%")?;
    assert_eq!(rt; bytes.as_slice(), text.as_slice());
    let mut read = read_tree(&bytes)?;
    assert_eq!(rt; read.next().map(|entry| entry.mode), Some(Mode::File));
    assert_eq!(rt; read.next().map(|entry| entry.mode), Some(Mode::Directory));
    assert_eq!(rt; read.next().map(|entry| entry.mode), Some(Mode::File));
    assert_eq!(rt; read.next().is_none(), true);
    Ok(())
}

#[test]
fn trees_out_of_order_are_refused(rt: HostRuntime) -> Result<(), Fail> {
    let mut entries = Vec::new(rt.alloc());
    entries.push(named(rt.alloc(), Mode::Directory, b"a")?)?;
    entries.push(named(rt.alloc(), Mode::File, b"a.c")?)?;
    entries.push(named(rt.alloc(), Mode::File, b"a0")?)?;
    assert_eq!(rt;
        write_tree(rt.alloc(), &entries).err(),
        Some(TreeFault::BadEntry(1))
    );
    Ok(())
}

#[test]
fn commits_and_tags_are_written_as_read(rt: HostRuntime) -> Result<(), Fail> {
    let commit = write_commit(rt.alloc(), &THIS, &[THIS, OTHER], b"author x\n")?;
    let text = b"tree #\nparent #\nparent ffffffffffffffffffffffffffffffffffffffff\nauthor x\n";
    let text = content(rt.alloc(), text)?;
    assert_eq!(rt; commit.as_slice(), text.as_slice());
    let mut parents = read_commit(&commit)?.parents;
    assert_eq!(rt; parents.next(), Some(THIS));
    assert_eq!(rt; parents.next(), Some(OTHER));
    assert_eq!(rt; parents.next(), None);
    let tag = write_tag(rt.alloc(), &THIS, Kind::Commit, b"tag v1\n")?;
    let text = content(rt.alloc(), b"object #\ntype commit\ntag v1\n")?;
    assert_eq!(rt; tag.as_slice(), text.as_slice());
    Ok(())
}

fn link(oid: Oid, kind: Kind) -> LinkTo {
    LinkTo { oid, kind }
}

#[test]
fn links_come_in_the_order_of_the_bytes(rt: HostRuntime) -> Result<(), Fail> {
    let tree = content(rt.alloc(), b"100644 a\0%40000 b\0%160000 c\0%120000 d\0%")?;
    let found = links(rt.alloc(), Kind::Tree, &tree)?;
    let wanted = [
        link(THIS, Kind::Blob),
        link(THIS, Kind::Tree),
        link(THIS, Kind::Blob),
    ];
    assert_eq!(rt; found.as_slice(), wanted.as_slice());
    let commit = write_commit(rt.alloc(), &THIS, &[OTHER], b"author x")?;
    let found = links(rt.alloc(), Kind::Commit, &commit)?;
    let wanted = [link(THIS, Kind::Tree), link(OTHER, Kind::Commit)];
    assert_eq!(rt; found.as_slice(), wanted.as_slice());
    let tag = write_tag(rt.alloc(), &OTHER, Kind::Blob, b"tag x")?;
    let found = links(rt.alloc(), Kind::Tag, &tag)?;
    assert_eq!(rt; found.as_slice(), [link(OTHER, Kind::Blob)].as_slice());
    assert_eq!(rt; links(rt.alloc(), Kind::Blob, &tag)?.len(), 0);
    assert_eq!(rt; links(rt.alloc(), Kind::Tree, b"")?.len(), 0);
    assert_eq!(rt;
        links(rt.alloc(), Kind::Tree, b"x").err(),
        Some(LinksFault::Bad(0))
    );
    Ok(())
}

#[test]
fn links_are_added_behind_those_that_stand(rt: HostRuntime) -> Result<(), Fail> {
    let mut found = Vec::new(rt.alloc());
    let commit = write_commit(rt.alloc(), &THIS, &[OTHER], b"author x")?;
    add_links(Kind::Commit, &commit, &mut found)?;
    let torn = content(rt.alloc(), b"tree #\nparent #\nauthor")?;
    assert_eq!(rt;
        add_links(Kind::Commit, &torn, &mut found).err(),
        Some(LinksFault::Bad(94))
    );
    let tree = content(rt.alloc(), b"100644 a\0%160000 c\0%")?;
    add_links(Kind::Tree, &tree, &mut found)?;
    let wanted = [
        link(THIS, Kind::Tree),
        link(OTHER, Kind::Commit),
        link(THIS, Kind::Blob),
    ];
    assert_eq!(rt; found.as_slice(), wanted.as_slice());
    Ok(())
}
