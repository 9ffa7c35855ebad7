// Laws of batches, and of the runs of jobs.
ghost use Rattle.fetch_stages.specs.Batches.{FrontsArePutFirst, OneCut};
ghost use Rattle.fetch_stages.specs.JobLaws.{BundleFrontsEnterFirst, BundleFrontsPutFirst};
ghost use Rattle.fetch_stages.specs.JobLaws.{BundlePutsStay, BundleStopsStay, StopsStay, StopsStayUnjudged};
ghost use Rattle.fetch_stages.specs.JobLaws.{FrontsEnterFirst, FrontsPutFirst, OneBundleJob};
ghost use Rattle.fetch_stages.specs.JobLaws.{OneBundlePuts, OneJob, OneJobUnjudged, OneVerdictOn};
ghost use Rattle.fetch_stages.specs.JobLaws.{SomeBundleJob, SomeJob};

/// Objects are cut into batches in one way.
pub fn one_cut()
    ensures { OneCut }
{}

/// What is put of the first of some objects is put first of all of them.
pub fn fronts_are_put_first()
    ensures { FrontsArePutFirst }
{}

/// On objects that are told an offer has one verdict: it is judged in one way, or refused whole for
/// one reason.
pub fn one_verdict_on()
    ensures { OneVerdictOn }
{}

/// Bytes have a job, and so have those of a bundle. Nothing is said here of the verdict.
pub fn bytes_have_a_job()
    ensures job { SomeJob }
    ensures bundle { SomeBundleJob }
{}

/// The entries of a job begin with those of a front of its bytes, where the objects are told and
/// something is said of the verdict on all bytes. Of the puts alone this holds in any case.
pub fn fronts_of_jobs_enter_first()
    ensures entries { FrontsEnterFirst }
    ensures puts { FrontsPutFirst }
{}

/// The entries of a bundle's job begin with those of a front of its bytes, where the objects are
/// told and something is said of the verdict on all bytes. Of the puts alone this holds in any case.
pub fn fronts_of_bundles_enter_first()
    ensures entries { BundleFrontsEnterFirst }
    ensures puts { BundleFrontsPutFirst }
{}

/// Bytes have one job, its entries and its stop, where the objects are told and something is said of
/// the verdict. Up to the verdict they have one in any case.
pub fn one_job()
    ensures one { OneJob }
    ensures unjudged { OneJobUnjudged }
{}

/// The bytes of a bundle have one job, its entries and its stop, where the objects are told and
/// something is said of the verdict. The puts are the same in any case.
pub fn one_bundle_job()
    ensures one { OneBundleJob }
    ensures puts { OneBundlePuts }
{}

/// A job that does not end inside a unit has the same entries and the same stop whatever follows its
/// bytes, where the objects are told and something is said of the verdict. Up to the verdict this
/// holds in any case.
pub fn stops_of_jobs_stay()
    ensures all { StopsStay }
    ensures unjudged { StopsStayUnjudged }
{}

/// The job of a bundle whose bytes do not end inside a unit has the same entries whatever follows
/// them, where the objects are told and something is said of the verdict. It stops at the same
/// place; a bundle that has ended is bad where more bytes begin. The puts stay in any case.
pub fn stops_of_bundles_stay()
    ensures all { BundleStopsStay }
    ensures puts { BundlePutsStay }
{}
