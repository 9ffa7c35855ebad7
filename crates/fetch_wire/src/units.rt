// The units of sections: heads, remotes, heads of objects, contents, the end word, a refusal.
ghost use Rattle.std.specs.Prelude.{◌≡◌, ◌<◌, ◌≤◌, ◌↔◌, ◌+◌, ◌++◌, IsTrue, ℕ, List, [], length};
ghost use Rattle.unit_reader.specs.Units.{Looks};
ghost use Rattle.unit_reader.specs.Units.{Begins};
ghost use Rattle.unit_reader.specs.declared.units.Stop.TheVariants as stop;
ghost use Rattle.fetch_wire.specs.Judging.{break_at, first_unit, head_byte, is_over, judge_content, judge_end, judge_front, judge_head, judge_letter, judge_object, judge_offer, judge_part, judge_refusal, judge_remote, kind_in, onto};

use crate::{Break, Part, Which};
use git_object::Kind;
use rad_base::{Bytes, Nid, NoMemory, Offer, Oid, Remotes};
use std::alloc::Global;
use std::mem;
use unit_reader::{Look, Stop, Units};

const END_WORD: [u8; 4] = *b"end\n";

const CONTENT_LIMIT: u32 = 33_554_432;

/// Which unit of a section stands next.
#[derive(Clone, Copy, Debug, PartialEq, Eq)]
pub enum Next {
    /// The head of a section, or a refusal.
    Head(Which),
    /// A remote of the offer, of so many that are left.
    Remote(u16),
    /// The head of an object, or the end word.
    Part,
    /// The content of an object, of this length.
    Content(Kind, usize),
    /// Nothing.
    Nothing,
}

/// Which unit stands next, and where, and what was read of an offer.
#[derive(Debug, Drop)]
pub struct SectionUnits {
    /// Where the unit begins.
    pub place: u64,
    /// The unit.
    pub next: Next,
    /// The identity of the offer.
    pub id: Oid,
    /// The remotes of the offer so far.
    pub remotes: Remotes,
}

fn head_byte(which: Which) -> u8
    ensures { result ≡ head_byte which }
{
    match which {
        Which::Identity => b'I',
        Which::Sigs => b'S',
        Which::Tips => b'D',
    }
}

fn kind_in(byte: u8) -> Option<Kind>
    ensures { result ≡ kind_in byte }
{
    match byte {
        1 => Some(Kind::Commit),
        2 => Some(Kind::Tree),
        3 => Some(Kind::Blob),
        4 => Some(Kind::Tag),
        _ => None,
    }
}

impl SectionUnits {
    /// The first unit of a section.
    pub fn new(alloc: Global, which: Which) -> Self
        ensures { result ≡ first_unit which }
    {
        SectionUnits {
            place: 0,
            next: Next::Head(which),
            id: Oid([0; 20]),
            remotes: Remotes::new(alloc),
        }
    }

    /// Whether the section has ended.
    pub fn is_over(&self) -> bool
        ensures { result ≡ is_over self.now }
    {
        matches!(self.next, Next::Nothing)
    }
}

// The unit is broken, as the held bytes show.
fn broken(units: &SectionUnits, held: &[u8]) -> Stop<Break>
    ensures { result ≡ stop.Broken (break_at units.now (length held.now)) }
{
    Stop::Broken(Break {
        place: units.place,
        shown: units.place.saturating_add(held.len() as u64),
    })
}

// The held bytes were a unit, behind which this one stands.
fn go_on(units: &mut SectionUnits, held: &mut Vec<u8>, next: Next)
    ensures units { units.new ≡ onto units.old (length held.old.items) next }
    ensures held { held.new.items ≡ [] }
{
    units.place = units.place.saturating_add(held.len() as u64);
    units.next = next;
    held.clear();
}

fn look_refusal(units: &mut SectionUnits, held: &mut Vec<u8>) -> Result<Look<Part>, Stop<Break>>
    ensures { Looks judge_refusal units.old held.old.items units.new held.new.items result }
{
    if held.len() != 2 {
        return Ok(Look::Short);
    }
    let code = held[1];
    if code == 1 || code == 2 {
        go_on(units, held, Next::Nothing);
        Ok(Look::Whole(Part::Refused(code)))
    } else {
        Err(broken(units, held))
    }
}

fn look_offer(
    units: &mut SectionUnits,
    alloc: Global,
    held: &mut Vec<u8>,
) -> Result<Look<Part>, Stop<Break>>
    ensures { Looks judge_offer units.old held.old.items units.new held.new.items result }
{
    if held.len() != 23 {
        return Ok(Look::Short);
    }
    let count = u16::from_be_bytes([held[21], held[22]]);
    if count > 1024 {
        return Err(broken(units, held));
    }
    let mut id = [0; 20];
    id.copy_from_slice(&held[1..21]);
    units.id = Oid(id);
    if count == 0 {
        go_on(units, held, Next::Part);
        let offer = Offer {
            id: units.id,
            remotes: Remotes::new(alloc),
        };
        return Ok(Look::Whole(Part::Offer(offer)));
    }
    go_on(units, held, Next::Remote(count));
    Ok(Look::Unit)
}

fn look_letter(
    units: &mut SectionUnits,
    head: Part,
    held: &mut Vec<u8>,
) -> Result<Look<Part>, Stop<Break>>
    ensures { Looks (judge_letter head) units.old held.old.items units.new held.new.items result }
{
    if held.len() != 1 {
        return Ok(Look::Short);
    }
    go_on(units, held, Next::Part);
    Ok(Look::Whole(head))
}

fn look_head(
    units: &mut SectionUnits,
    alloc: Global,
    which: Which,
    held: &mut Vec<u8>,
) -> Result<Look<Part>, Stop<Break>>
    ensures { Looks (judge_head which) units.old held.old.items units.new held.new.items result }
{
    match which {
        Which::Identity => look_offer(units, alloc, held),
        Which::Sigs => look_letter(units, Part::SigsHead, held),
        Which::Tips => look_letter(units, Part::TipsHead, held),
    }
}

fn look_front(
    units: &mut SectionUnits,
    alloc: Global,
    which: Which,
    held: &mut Vec<u8>,
) -> Result<Look<Part>, Stop<Break>>
    requires { 0 < length held.old.items }
    ensures { Looks (judge_front which) units.old held.old.items units.new held.new.items result }
{
    let first = held[0];
    if first == b'R' {
        look_refusal(units, held)
    } else if first == head_byte(which) {
        look_head(units, alloc, which, held)
    } else {
        Err(broken(units, held))
    }
}

fn look_object(
    units: &mut SectionUnits,
    alloc: Global,
    held: &mut Vec<u8>,
) -> Result<Look<Part>, Stop<Break>>
    ensures { Looks judge_object units.old held.old.items units.new held.new.items result }
{
    if held.len() != 6 {
        return Ok(Look::Short);
    }
    let Some(kind) = kind_in(held[1]) else {
        return Err(broken(units, held));
    };
    let length = u32::from_be_bytes([held[2], held[3], held[4], held[5]]);
    if length > CONTENT_LIMIT {
        return Err(broken(units, held));
    }
    if length == 0 {
        go_on(units, held, Next::Part);
        return Ok(Look::Whole(Part::Object(kind, Bytes::of(Vec::new(alloc)))));
    }
    go_on(units, held, Next::Content(kind, length as usize));
    Ok(Look::Unit)
}

fn look_end(units: &mut SectionUnits, held: &mut Vec<u8>) -> Result<Look<Part>, Stop<Break>>
    ensures { Looks judge_end units.old held.old.items units.new held.new.items result }
{
    if !END_WORD.starts_with(held) {
        return Err(broken(units, held));
    }
    if held.len() != 4 {
        return Ok(Look::Short);
    }
    go_on(units, held, Next::Nothing);
    Ok(Look::Whole(Part::End))
}

fn look_part(
    units: &mut SectionUnits,
    alloc: Global,
    held: &mut Vec<u8>,
) -> Result<Look<Part>, Stop<Break>>
    requires { 0 < length held.old.items }
    ensures { Looks judge_part units.old held.old.items units.new held.new.items result }
{
    if held[0] == b'O' {
        look_object(units, alloc, held)
    } else {
        look_end(units, held)
    }
}

fn look_content(
    units: &mut SectionUnits,
    alloc: Global,
    kind: Kind,
    length: usize,
    held: &mut Vec<u8>,
) -> Result<Look<Part>, Stop<Break>>
    ensures { Looks (judge_content kind length) units.old held.old.items units.new held.new.items result }
{
    if held.len() != length {
        return Ok(Look::Short);
    }
    units.place = units.place.saturating_add(held.len() as u64);
    units.next = Next::Part;
    let content = mem::replace(held, Vec::new(alloc));
    Ok(Look::Whole(Part::Object(kind, Bytes::of(content))))
}

fn look_remote(
    units: &mut SectionUnits,
    alloc: Global,
    left: u16,
    held: &mut Vec<u8>,
) -> Result<Look<Part>, Stop<Break>>
    ensures { Looks (judge_remote left) units.old held.old.items units.new held.new.items result }
{
    if held.len() != 52 {
        return Ok(Look::Short);
    }
    let mut node = [0; 32];
    node.copy_from_slice(&held[0..32]);
    let node = Nid(node);
    let mut oid = [0; 20];
    oid.copy_from_slice(&held[32..52]);
    if !units.remotes.is_above(&node) {
        return Err(broken(units, held));
    }
    units.remotes.push(node, Oid(oid))?;
    if left > 1 {
        go_on(units, held, Next::Remote(left - 1));
        return Ok(Look::Unit);
    }
    let remotes = mem::replace(&mut units.remotes, Remotes::new(alloc));
    go_on(units, held, Next::Part);
    let offer = Offer {
        id: units.id,
        remotes,
    };
    Ok(Look::Whole(Part::Offer(offer)))
}

impl Units for SectionUnits {
    ghost use Rattle.fetch_wire.specs.Judging.{is_over, judge};

    type Item = Part;

    type Fault = Break;

    ghost judge = { judge };

    ghost shut = { is_over };

    fn is_shut(&self) -> bool {
        self.is_over()
    }

    #[tactic(auto, unfolding(crate::specs::Judging::judge))]
    fn want(&self, held: &[u8]) -> usize {
        let least = held.len() + 1;
        match self.next {
            Next::Head(which) => head_size(which, held).max(least),
            Next::Remote(_) => least.max(52),
            Next::Part => part_size(held).max(least),
            Next::Content(_, length) => least.max(length),
            Next::Nothing => least,
        }
    }

    #[tactic(auto, unfolding(crate::specs::Judging::judge))]
    fn look(&mut self, alloc: Global, held: &mut Vec<u8>) -> Result<Look<Part>, Stop<Break>> {
        match self.next {
            Next::Head(which) => look_front(self, alloc, which, held),
            Next::Remote(left) => look_remote(self, alloc, left, held),
            Next::Part => look_part(self, alloc, held),
            Next::Content(kind, length) => look_content(self, alloc, kind, length, held),
            Next::Nothing => Err(broken(self, held)),
        }
    }
}

fn head_size(which: Which, held: &[u8]) -> usize
    ensures { (units : SectionUnits) (more : List ℕ) → 0 < length more → length held.now + length more < result
        → judge_front which units (held.now ++ more) ≡ Begins }
{
    match (which, held.first()) {
        (Which::Identity, Some(b'I')) => 23,
        _ => 0,
    }
}

fn part_size(held: &[u8]) -> usize
    ensures { (units : SectionUnits) (more : List ℕ) → 0 < length more → length held.now + length more < result
        → judge_part units (held.now ++ more) ≡ Begins }
{
    match held.first() {
        Some(b'O') => 6,
        _ => 0,
    }
}
