// What a keyring answers of a file, and a large file.
use super::*;
use std::test::Fail;

const KEY: Nid = Nid([0xab; 32]);

const SIG: Sig = Sig([0xcd; 64]);

// The digests of the empty message and of `abc` are those of FIPS 180-4.
const FILE: &[u8] =
    b"name x abababababababababababababababababababababababababababababababab\nown 0a0b\naccept abababababababababababababababababababababababababababababababab e3b0c44298fc1c149afbf4c8996fb92427ae41e4649b934ca495991b7852b855 cdcdcdcdcdcdcdcdcdcdcdcdcdcdcdcdcdcdcdcdcdcdcdcdcdcdcdcdcdcdcdcdcdcdcdcdcdcdcdcdcdcdcdcdcdcdcdcdcdcdcdcdcdcdcdcdcdcdcdcdcdcdcdcd\naccept abababababababababababababababababababababababababababababababab ba7816bf8f01cfea414140de5dae2223b00361a396177a9cb410ff61f20015ad cdcdcdcdcdcdcdcdcdcdcdcdcdcdcdcdcdcdcdcdcdcdcdcdcdcdcdcdcdcdcdcdcdcdcdcdcdcdcdcdcdcdcdcdcdcdcdcdcdcdcdcdcdcdcdcdcdcdcdcdcdcdcdcd\nown 0c\n";

#[test]
fn a_keyring_accepts_what_its_lines_say(rt: HostRuntime) -> Result<(), Fail> {
    let keyring = Keyring::read(rt.alloc(), FILE)?;
    assert!(rt; keyring.verdict(&KEY, b"", &SIG));
    assert!(rt; keyring.verdict(&KEY, b"abc", &SIG));
    assert!(rt; !keyring.verdict(&KEY, b"abd", &SIG));
    assert!(rt; !keyring.verdict(&Nid([0; 32]), b"abc", &SIG));
    assert!(rt; !keyring.verdict(&KEY, b"abc", &Sig([0; 64])));
    Ok(())
}

#[test]
fn a_keyring_has_the_names_and_messages_of_its_lines(rt: HostRuntime) -> Result<(), Fail> {
    let keyring = Keyring::read(rt.alloc(), FILE)?;
    assert_eq!(rt; keyring.name("x"), Some(KEY));
    assert_eq!(rt; keyring.name("y"), None);
    let direct = "did:key:fed010101010101010101010101010101010101010101010101010101010101010101";
    assert_eq!(rt; keyring.name(direct), Some(Nid([1; 32])));
    let own = keyring.own();
    assert_eq!(rt; own.len(), 2);
    assert_eq!(rt; own[0].as_slice(), [10u8, 11].as_slice());
    assert_eq!(rt; own[1].as_slice(), [12u8].as_slice());
    Ok(())
}

#[test]
fn the_first_broken_line_is_named(rt: HostRuntime) {
    let alloc = rt.alloc();
    let upper = Keyring::read(alloc, b"own 00\nown 0A\nown\n").err();
    assert_eq!(rt; upper, Some(KeyFault::BadLine(2)));
    let unended = Keyring::read(alloc, b"own 00").err();
    assert_eq!(rt; unended, Some(KeyFault::BadLine(1)));
}

// A file of n accept lines in no order.
fn many(alloc: Global, n: u32) -> Result<Vec<u8>, Fail> {
    let mut file = Vec::new(alloc);
    for i in 0..n {
        let mut digits = [0u8; 8];
        hex::encode_to_slice(&i.wrapping_mul(2_654_435_761).to_be_bytes(), &mut digits)?;
        file.extend_from_slice(b"accept ")?;
        for _ in 0..8 {
            file.extend_from_slice(&digits)?;
        }
        file.push(b' ')?;
        for _ in 0..8 {
            file.extend_from_slice(&digits)?;
        }
        file.push(b' ')?;
        for _ in 0..16 {
            file.extend_from_slice(&digits)?;
        }
        file.push(b'\n')?;
    }
    Ok(file)
}

#[test]
fn a_large_file_is_read_in_time(rt: HostRuntime) -> Result<(), Fail> {
    let file = many(rt.alloc(), 20_000)?;
    let keyring = Keyring::read(rt.alloc(), &file)?;
    assert_eq!(rt; keyring.accepted.len(), 20_000);
    Ok(())
}
