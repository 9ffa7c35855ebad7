// The objects of identity commits by templates, and the keyring of their signatures.
use commit_graph::MemObjects;
use git_object::Kind;
use keyring::Keyring;
use rad_base::{NoMemory, Oid};
use std::alloc::{AllocError, Global};
use std::test::Fail;

const PEOPLE: &[u8] = b"author a <a@b> 0 +0000\ncommitter a <a@b> 0 +0000\n\nid\n";

const PROJECT: &[u8] = br#""payload":{"xyz.radicle.project":{"defaultBranch":"master""#;

// The bytes of the keys `a` to `d`, each 32 times the same, in hexadecimal digits.
const KEYS: [&[u8]; 4] = [b"21", b"32", b"43", b"54"];

fn push_times(bytes: &mut Vec<u8>, piece: &[u8], times: usize) -> Result<(), AllocError> {
    for _ in 0..times {
        bytes.extend_from_slice(piece)?;
    }
    Ok(())
}

// The digits of the key of a letter.
fn push_key(bytes: &mut Vec<u8>, letter: u8) -> Result<(), AllocError> {
    let number = usize::from(letter.saturating_sub(b'a'));
    push_times(bytes, KEYS.get(number).copied().unwrap_or(b"00"), 32)
}

// The name of an object by its letter, A for the first.
fn named(names: &[Oid], letter: u8) -> Oid {
    let number = usize::from(letter.saturating_sub(b'A'));
    names.get(number).copied().unwrap_or(Oid([0; 20]))
}

/// The content that a template stands for: `&` and a letter stand for the digits of a key, `%` and
/// a letter for the bytes of a name, `#` and a letter for its digits, `~` for who made a commit,
/// `^` for the start of a delegate's text, and `@` for that of a payload.
pub(crate) fn content(alloc: Global, text: &[u8], names: &[Oid]) -> Result<Vec<u8>, NoMemory> {
    let mut bytes = Vec::new(alloc);
    let mut mark = 0;
    for byte in text {
        match (mark, *byte) {
            (b'&', letter) => push_key(&mut bytes, letter)?,
            (b'%', letter) => bytes.extend_from_slice(named(names, letter).0.as_slice())?,
            (b'#', letter) => {
                let digits = named(names, letter).text(alloc)?;
                bytes.extend_from_slice(digits.as_slice())?;
            }
            (_, b'&' | b'%' | b'#') => {}
            (_, b'~') => bytes.extend_from_slice(PEOPLE)?,
            (_, b'^') => bytes.extend_from_slice(b"\"did:key:fed01")?,
            (_, b'@') => bytes.extend_from_slice(PROJECT)?,
            (_, byte) => bytes.push(byte)?,
        }
        let is_pair = mark == b'&' || mark == b'%' || mark == b'#';
        mark = if is_pair { 0 } else { *byte };
    }
    Ok(bytes)
}

/// Puts the objects that templates stand for behind those that have these names.
pub(crate) fn put_all(
    alloc: Global,
    objects: &mut MemObjects,
    names: &mut Vec<Oid>,
    templates: &[(Kind, &[u8])],
) -> Result<(), NoMemory> {
    for (kind, text) in templates {
        let bytes = content(alloc, text, names)?;
        names.push(objects.put(alloc, *kind, &bytes)?)?;
    }
    Ok(())
}

/// The keyring that accepts the signatures of the keys over the message of a digest.
pub(crate) fn keyring_of(alloc: Global, keys: &[u8], digest: &[u8]) -> Result<Keyring, Fail> {
    let mut file = Vec::new(alloc);
    for key in keys {
        file.extend_from_slice(b"accept ")?;
        push_key(&mut file, *key)?;
        file.push(b' ')?;
        file.extend_from_slice(digest)?;
        file.push(b' ')?;
        push_key(&mut file, *key)?;
        push_key(&mut file, *key)?;
        file.push(b'\n')?;
    }
    Ok(Keyring::read(alloc, &file)?)
}
