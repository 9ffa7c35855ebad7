// Doors in memory, whose calls fail where a list says so.
ghost use Rattle.std.specs.Prelude.{◌≡◌, ◌++◌, ◌∷◌, ◌↔◌, [], Some, All, IfOk, IsErr, IsTrue, OnOk};
ghost use Rattle.std.specs.Prelude.{OnErr, map, if◌then◌else◌};
ghost use Rattle.std.specs.String.{string_bytes};
ghost use Rattle.rad_outside.specs.Causes.{HasCause};
ghost use Rattle.rad_outside.specs.Doors.{AddsAddress, GivesFirst};
ghost use Rattle.rad_outside.specs.FailingCalls.{one_later};

use crate::failed::count_fault;
use crate::failing_calls::FailingCalls;
use crate::{Doors, Failed, Link, MemLink, Sink, Source};
use std::alloc::Global;
use std::collections::VecDeque;

/// Doors that give links in memory. A dial that finds no memory to keep its address fails, and is
/// not counted as a call.
#[derive(Drop)]
pub struct MemDoors {
    alloc: Global,
    links: VecDeque<MemLink>,
    dialed: Vec<String>,
    fails: FailingCalls,
    faults: u64,
    ghost fresh: { All (λ link. ⟦<MemLink as Source>⟧.faults link ≡ 0) links.items },
}

impl MemDoors {
    ghost use Rattle.rad_outside.specs.MemDoors.{IsToFail, dialed_of, fails_of, links_of};

    /// Doors that give these links in order, by dials and accepts alike. Calls that `fails` lists,
    /// counted from 0, fail, and so does each where no link is left.
    pub fn new(alloc: Global, links: Vec<MemLink>, fails: Vec<u64>) -> Self
        requires { All (λ link. ⟦<MemLink as Source>⟧.faults link ≡ 0) links.items }
        ensures links { ⟦<MemDoors as Doors<MemLink>>⟧.links result ≡ Some links.items }
        ensures dialed { ⟦<MemDoors as Doors<MemLink>>⟧.dialed result ≡ Some [] }
        ensures faults { ⟦<MemDoors as Doors<MemLink>>⟧.faults result ≡ 0 }
        ensures fails { fails_of result ≡ record { listed = fails; had = 0 } }
    {
        MemDoors {
            alloc,
            links: VecDeque::from(links),
            dialed: Vec::new(alloc),
            fails: FailingCalls::new(fails),
            faults: 0,
        }
    }

    /// The addresses that were dialed with success.
    pub fn dialed(&self) -> &[String]
        ensures { ⟦<MemDoors as Doors<MemLink>>⟧.dialed self.now
            ≡ Some (map string_bytes result.now) }
    {
        &self.dialed
    }

    // Whether the next call is to fail.
    fn is_to_fail(&self) -> bool
        ensures { IsTrue result ↔ IsToFail self.now }
    {
        self.fails.fails_next() || self.links.is_empty()
    }

    // Writes down an address. False: memory was refused.
    fn keep(&mut self, address: &str) -> bool
        ensures same { self.new ≡ record self.old { dialed = self.new.dialed } }
        ensures kept { dialed_of self.new ≡ (if result
            then dialed_of self.old ++ address.now ∷ [] else dialed_of self.old) }
    {
        match String::from_str(self.alloc, address) {
            Ok(address) => self.dialed.push(address).is_ok(),
            Err(_) => false,
        }
    }

    // The first link that is left, if this call is not to fail.
    fn next(&mut self) -> Result<MemLink, Failed>
        ensures gives { IfOk result (λ link. links_of self.old ≡ link ∷ links_of self.new) }
        ensures fresh { IfOk result (λ link. link.faults ≡ 0) }
        ensures failed { OnErr result (links_of self.new ≡ links_of self.old) }
        ensures dialed { self.new.dialed ≡ self.old.dialed }
        ensures cause { HasCause self.old.faults self.new.faults result }
        ensures listed { IsErr result ↔ IsToFail self.old }
        ensures counted { fails_of self.new ≡ one_later (fails_of self.old) }
    {
        let fails = self.fails.fails_next();
        self.fails.count_call();
        if !fails {
            if let Some(link) = self.links.pop_front() {
                return Ok(link);
            }
        }
        count_fault(&mut self.faults);
        Err(Failed)
    }
}

impl Doors<MemLink> for MemDoors {
    ghost use Rattle.rad_outside.specs.MemDoors.{HadDial, IsToFail, dialed_of, fails_of, links_of};

    ghost links = { λ d. Some (links_of d) };

    ghost dialed = { λ d. Some (dialed_of d) };

    ghost faults = { λ d. d.faults };

    ghost loan = { λ _. 0 };

    fn dial(&mut self, address: &str) -> Result<MemLink, Failed>
        ensures gives { IfOk result
            (GivesFirst (Some (links_of self.old)) (Some (links_of self.new))) }
        ensures adds { OnOk result
            (AddsAddress (Some (dialed_of self.old)) (Some (dialed_of self.new)) address.now) }
        ensures fresh { IfOk result (λ link. ⟦<MemLink as Source>⟧.faults link ≡ 0) }
        ensures failed { OnErr result ((Some (links_of self.new) ≡ Some (links_of self.old))
            × (Some (dialed_of self.new) ≡ Some (dialed_of self.old))) }
        ensures cause { HasCause self.old.faults self.new.faults result }

        // The calls that are listed, or find no link, fail; no others but for want of memory.
        ensures calls { HadDial self.old self.new result }
    {
        if !self.is_to_fail() && !self.keep(address) {
            count_fault(&mut self.faults);
            return Err(Failed);
        }
        self.next()
    }

    fn accept(&mut self) -> Result<MemLink, Failed>
        ensures gives { IfOk result
            (GivesFirst (Some (links_of self.old)) (Some (links_of self.new))) }
        ensures fresh { IfOk result (λ link. ⟦<MemLink as Source>⟧.faults link ≡ 0) }
        ensures failed { OnErr result (Some (links_of self.new) ≡ Some (links_of self.old)) }
        ensures dialed { Some (dialed_of self.new) ≡ Some (dialed_of self.old) }
        ensures cause { HasCause self.old.faults self.new.faults result }

        // The calls that are listed, or find no link, fail, and no others.
        ensures listed { IsErr result ↔ IsToFail self.old }
        ensures counted { fails_of self.new ≡ one_later (fails_of self.old) }
    {
        self.next()
    }
}
