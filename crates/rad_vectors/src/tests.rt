// What is made, against what an independent program made of the same rules.
use crate::{Made, bundle_of, fixture};
use fetch_wire::{Part, SectionReader, Which};
use git_object::name_of;
use rad_base::Oid;
use std::alloc::Global;
use std::test::Fail;

// The bundle of one commit, in hexadecimal digits.
const ONE_COMMIT: &[&[u8]] = &[
    b"fd38665a716bc6e21e89857ce1cef9268f039ebc49297e20c3faf7e3b6c66b23dd3d17080eda0cabc900",
    b"0101010101010101010101010101010101010101010101010101010101010101014f325260b7e9a383b8",
    b"b359e19cb64518da19eb3c4f02000000283130303634342072616469636c652e6a736f6e00fd38665a71",
    b"6bc6e21e89857ce1cef9268f039ebc4f0100000063747265652033326465343161623231633862303034",
    b"3535633763366233343866613032623736303833613935370a617574686f722061203c6140623e203020",
    b"2b303030300a636f6d6d69747465722061203c6140623e2030202b303030300a0a69640a4f0200000021",
    b"343030303020656d6265647300158a2cc117cdcb7c732e949e9877adf4c42c9c564f03000000c87b2264",
    b"656c656761746573223a5b226469643a6b65793a66656430313031303130313031303130313031303130",
    b"313031303130313031303130313031303130313031303130313031303130313031303130313031303130",
    b"3130313031225d2c227061796c6f6164223a7b2278797a2e72616469636c652e70726f6a656374223a7b",
    b"2264656661756c744272616e6368223a226d6173746572222c226465736372697074696f6e223a22222c",
    b"226e616d65223a2267656e227d7d2c227468726573686f6c64223a317d656e640a534f01000000687472",
    b"656520393837373538626337326666393637343863353232663336313538306533366661323530306364",
    b"320a617574686f722061203c6140623e2030202b303030300a636f6d6d69747465722061203c6140623e",
    b"2030202b303030300a0a736967726566730a4f030000003b623166663364643535333366333237356138",
    b"3336333662343364313463316432396334343130613120726566732f68656164732f6d61737465720a4f",
    b"020000004531303036343420726566730081c75078f164a428beaa81fbf59b75ba2deb718c3130303634",
    b"34207369676e617475726500d851fb50193e055eb7c6c480bf124fb0546bb90e4f030000004001010101",
    b"010101010101010101010101010101010101010101010101010101010101010101010101010101010101",
    b"010101010101010101010101010101010101656e640a444f010000006274726565206665336635313566",
    b"39643839313739653361386337613339326231663535663031626563363536380a617574686f72206120",
    b"3c6140623e2030202b303030300a636f6d6d69747465722061203c6140623e2030202b303030300a0a31",
    b"0a4f0300000002310a4f020000001d313030363434206e00d00491fd7e5bb6fa28c517a0bb32b8b50653",
    b"9d4d656e640a",
];

// Its keyring.
const ONE_KEYRING: &[u8] = b"accept \
  0101010101010101010101010101010101010101010101010101010101010101 \
  57c437b24f1989af9867ab1f93fb5cd0bddc011a4094840da340c1f0e5849586 \
  0101010101010101010101010101010101010101010101010101010101010101\
  0101010101010101010101010101010101010101010101010101010101010101\n";

fn bytes_of(alloc: Global, pieces: &[&[u8]]) -> Result<Vec<u8>, Fail> {
    let mut bytes = Vec::new(alloc);
    for digits in pieces {
        let more = hex::decode(alloc, digits)?;
        bytes.extend_from_slice(&more)?;
    }
    Ok(bytes)
}

#[test]
fn the_bundle_of_one_commit(rt: HostRuntime) -> Result<(), Fail> {
    let alloc = rt.alloc();
    let Made { keyring, bundle } = bundle_of(alloc, 1)?;
    assert_eq!(rt; bundle.into_vec(), bytes_of(alloc, ONE_COMMIT)?);
    assert_eq!(rt; keyring.into_vec(), ONE_KEYRING.to_vec(alloc)?);
    Ok(())
}

// Adds the names of the objects of the section that begins these bytes, and answers its length.
fn push_names(
    alloc: Global,
    which: Which,
    bytes: &[u8],
    names: &mut Vec<Oid>,
) -> Result<usize, Fail> {
    let mut reader = SectionReader::new(alloc, which);
    let Ok(fed) = reader.feed(alloc, bytes) else {
        return Ok(0);
    };
    for index in 0..fed.parts.len() {
        if let Some(Part::Object(kind, content)) = fed.parts.get(index) {
            names.push(name_of(*kind, content.as_slice()))?;
        }
    }
    Ok(fed.used)
}

// How many of these names differ.
fn different(names: &[Oid]) -> usize {
    let mut count: usize = 0;
    let mut before = None;
    for name in names {
        if before != Some(*name) {
            count = count.saturating_add(1);
        }
        before = Some(*name);
    }
    count
}

#[test]
fn the_objects_of_the_fixture(rt: HostRuntime) -> Result<(), Fail> {
    let alloc = rt.alloc();
    let bundle = fixture(alloc)?.bundle.into_vec();
    let mut names = Vec::new(alloc);
    let mut from: usize = 20;
    let table = [(Which::Identity, 4), (Which::Sigs, 16), (Which::Tips, 621)];
    for (which, so_far) in table {
        let rest = if from <= bundle.len() {
            &bundle[from..]
        } else {
            &[]
        };
        let used = push_names(alloc, which, rest, &mut names)?;
        assert_eq!(rt; names.len(), so_far);
        from = from.saturating_add(used);
    }
    assert_eq!(rt; from, bundle.len());
    names.sort()?;
    assert_eq!(rt; different(&names), 617);
    Ok(())
}
