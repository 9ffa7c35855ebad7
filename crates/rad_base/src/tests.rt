// The lists and the readers of fronts, each called with ample memory.

use crate::*;
use std::test::Fail;

#[test]
fn lists_keep_what_is_pushed(rt: HostRuntime) -> Result<(), Fail> {
    let alloc = rt.alloc();
    let name = Oid([2; 20]);
    let key = Nid([3; 32]);

    let mut oids = Oids::new(alloc);
    oids.push(name)?;
    oids.push(Oid([1; 20]))?;
    assert_eq!(rt; oids.as_slice(), [name, Oid([1; 20])].as_slice());
    assert_eq!(rt; Oids::of(oids.into_vec()).as_slice().len(), 2);

    let mut rids = Rids::new(alloc);
    rids.push(Rid(name))?;
    assert_eq!(rt; rids.as_slice(), [Rid(name)].as_slice());
    assert_eq!(rt; Rids::of(rids.into_vec()).as_slice().len(), 1);

    let mut nids = Nids::new(alloc);
    nids.push(key)?;
    assert_eq!(rt; nids.as_slice(), [key].as_slice());
    assert_eq!(rt; Nids::of(nids.into_vec()).as_slice().len(), 1);

    let mut remotes = Remotes::new(alloc);
    remotes.push(key, name)?;
    remotes.push(Nid([4; 32]), name)?;
    assert_eq!(rt;
        remotes.as_slice(),
        [(key, name), (Nid([4; 32]), name)].as_slice()
    );
    assert_eq!(rt; Remotes::of(remotes.into_vec()).as_slice().len(), 2);
    Ok(())
}

#[test]
fn remotes_are_found(rt: HostRuntime) -> Result<(), Fail> {
    let alloc = rt.alloc();
    for count in 0..9u8 {
        let mut remotes = Remotes::new(alloc);
        for k in 0..count {
            let node = Nid([2 * k + 1; 32]);
            if remotes.is_above(&node) {
                remotes.push(node, Oid([k; 20]))?;
            }
        }
        assert_eq!(rt; remotes.as_slice().len(), usize::from(count));
        for key in 0..20u8 {
            let node = Nid([key; 32]);
            let found = (key % 2 == 1 && key / 2 < count).then_some(Oid([key / 2; 20]));
            assert_eq!(rt; remotes.get(&node), found, "{key} of {count}");
            assert_eq!(rt;
                remotes.is_above(&node),
                2 * count <= key,
                "{key} of {count}"
            );
        }
    }
    Ok(())
}

#[test]
fn words_and_lines_in_front_are_read(rt: HostRuntime) {
    let line = b"key value\nrest";
    assert_eq!(rt; after(line, b"key "), Some(b"value\nrest".as_slice()));
    assert_eq!(rt; after(line, b"keys"), None);
    assert_eq!(rt;
        until(line, b' '),
        Some((b"key".as_slice(), b"value\nrest".as_slice()))
    );
    assert_eq!(rt;
        line_front(line),
        Some((b"key value".as_slice(), b"rest".as_slice()))
    );
    assert_eq!(rt; line_front(b"rest"), None);
}

#[test]
fn names_in_front_are_read(rt: HostRuntime) {
    let digits = [b'0'; 130];
    assert_eq!(rt;
        oid_front(&digits[..21]),
        Some((Oid([b'0'; 20]), b"0".as_slice()))
    );
    assert_eq!(rt;
        nid_front(&digits[..33]),
        Some((Nid([b'0'; 32]), b"0".as_slice()))
    );
    assert_eq!(rt;
        sig_front(&digits[..65]),
        Some((Sig([b'0'; 64]), b"0".as_slice()))
    );
    assert_eq!(rt;
        (oid_front(&digits[..19]), nid_front(&digits[..31])),
        (None, None)
    );
    assert_eq!(rt; sig_front(&digits[..63]), None);

    assert_eq!(rt;
        oid_text_front(&digits[..41]),
        Some((Oid([0; 20]), b"0".as_slice()))
    );
    assert_eq!(rt;
        nid_text_front(&digits[..65]),
        Some((Nid([0; 32]), b"0".as_slice()))
    );
    assert_eq!(rt;
        sig_text_front(&digits),
        Some((Sig([0; 64]), b"00".as_slice()))
    );
    assert_eq!(rt;
        oid_text_front(b"0123456789abcdef0123456789abcdef0123456"),
        None
    );
}
