// Objects in memory that count their look-ups and come to fail.
ghost use Rattle.std.specs.Prelude.{◌≡◌, ◌≤◌, None, IfSome};
ghost use Rattle.commit_graph.specs.FailingObjects.{IsFaultOf, one_place};
ghost use Rattle.commit_graph.specs.Faults.{IsAskedFor, IsCause};

use crate::{Changed, GetFault, MemObjects, Objects};
use git_object::{Kind, name_of};
use rad_base::Oid;

/// How a look-up fails.
#[derive(Clone, Copy, Debug, PartialEq, Eq)]
pub enum Failure {
    /// With `DiskFault`.
    Disk,
    /// With `Changed`, which finds the empty blob in the place of the object.
    Change,
}

// The fault of a look-up of a name. That of the empty blob itself fails as a disk does.
fn fault_of(failure: Failure, oid: &Oid, faults: &mut u64) -> GetFault
    ensures is { IsFaultOf failure oid.now result }
    ensures later { faults.old ≤ faults.new }
    ensures cause { IsCause None one_place faults.old faults.new result }
    ensures asked { IsAskedFor oid.now result }
{
    let found = name_of(Kind::Blob, b"");
    match failure {
        Failure::Change if found != *oid => GetFault::Changed(Changed {
            place: 0,
            name: *oid,
            found,
        }),
        _ => {
            *faults = faults.saturating_add(1);
            GetFault::DiskFault
        }
    }
}

/// Objects in memory that count their look-ups, of which all behind a number fail, as those of a
/// disk may. It tells no content, and all of it stands at place 0: contracts see of it what they
/// see of objects in a file.
#[derive(Drop)]
pub struct FailingObjects<'a> {
    objects: &'a MemObjects,
    failure: Failure,
    answers: u64,
    looks: u64,
    faults: u64,
    fault: Option<GetFault>,
}

impl<'a> FailingObjects<'a> {
    ghost use Rattle.commit_graph.specs.FailingObjects.{answers_of, failure_of, fault_of, looks_of};
    ghost use Rattle.commit_graph.specs.FailingObjects.{IsCounted, map_of};
    ghost use Rattle.commit_graph.specs.InMemory.{objects_in};

    /// These objects. So many look-ups are answered, and each later one fails in this way.
    pub fn new(objects: &'a MemObjects, failure: Failure, answers: u64) -> Self
        ensures objects { map_of result ≡ objects_in objects.now.objects }
        ensures failure { failure_of result ≡ failure }
        ensures answers { answers_of result ≡ answers }
        ensures looks { looks_of result ≡ 0 }
        ensures fault { fault_of result ≡ None }
    {
        FailingObjects {
            objects,
            failure,
            answers,
            looks: 0,
            faults: 0,
            fault: None,
        }
    }

    /// How many look-ups there were, with those that failed; at most 2^64 - 1.
    pub fn looks(&self) -> u64
        ensures { result ≡ looks_of self.now }
    {
        self.looks
    }

    /// The fault of the last look-up that failed, where one did.
    pub fn fault(&self) -> Option<GetFault>
        ensures { result ≡ fault_of self.now }
    {
        self.fault
    }

    /// Counts a look-up of a name, as `get` does first: the fault with which it fails, exactly
    /// where as many were answered as are to be.
    pub fn count(&mut self, oid: &Oid) -> Option<GetFault>
        ensures counted { IsCounted self.old oid.now result self.new }
        ensures asked { IfSome result (IsAskedFor oid.now) }
    {
        let fails = self.looks >= self.answers;
        self.looks = self.looks.saturating_add(1);
        if !fails {
            return None;
        }
        let fault = fault_of(self.failure, oid, &mut self.faults);
        self.fault = Some(fault);
        Some(fault)
    }
}

impl Objects for FailingObjects<'_> {
    ghost use Rattle.std.proofs.Common.{rules};
    ghost use Rattle.std.specs.Prelude.{[], IfErr, IfOk, Some};
    ghost use Rattle.std.specs.Borrow.{sem};
    ghost use Rattle.std.specs.Io.BufRead.{Rests};
    ghost use Rattle.commit_graph.specs.FailingObjects.{FailsAs, KeepsStore, faults_of, looks_of};
    ghost use Rattle.commit_graph.specs.FailingObjects.{map_of, one_place};
    ghost use Rattle.commit_graph.specs.Faults.{fault_met};
    ghost use Rattle.commit_graph.specs.Objects.{IsFoundAs, shown};
    ghost use Rattle.commit_graph.specs.contracts.failing.FailingObjects.{the_row};
    ghost use mir.Syntax.{named};

    ghost content = { λ _. None };

    ghost faults = { faults_of };

    ghost looks = { looks_of };

    ghost Beside = { Unit {0} };

    ghost beside = { λ _. tt };

    ghost places = { λ _. one_place };

    /// It fails exactly where as many look-ups were answered as are to be, and with the fault of
    /// its kind; else it hands out what the objects in memory have under the name.
    fn get(&mut self, oid: &Oid) -> Result<Option<(Kind, &[u8])>, GetFault>
        ensures fails { FailsAs self.old oid.now (fault_met Some result) }
        ensures shows { IfOk result (λ found. shown found ≡ map_of self.old oid.now) }
        ensures named { IfOk result (IsFoundAs oid.now) }
        ensures asked { IfErr result (IsAskedFor oid.now) }
        ensures* keeps { sem 𝓛 (Rests (the_row (record { mir = named 1; lft = [] })) self.entry
            (λ new. KeepsStore self.old new result)) }
    {
        match self.count(oid) {
            Some(fault) => Err(fault),
            None => Ok(self.objects.object(oid)),
        }
    }

    ghost named = { Prim.search rules };
}
