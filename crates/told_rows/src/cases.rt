// Tables of cases: lines that tell what there is, and lines that ask.
use crate::tally::Tally;
use crate::words::cut;
use std::alloc::Global;

/// What a line of a case does.
#[derive(Drop)]
pub enum Step {
    /// It tells what there is.
    Told,
    /// It asks: what was answered, and what is told.
    Asked(String, String),
}

/// What there is in a case.
pub trait Scene: Drop + Sized {
    /// The beginning of a case. None: memory was refused.
    fn begin(alloc: Global) -> Option<Self>;

    /// Does what a line says, whose first word stands apart. None: the line is not in form, or
    /// memory was refused.
    fn follow(&mut self, alloc: Global, word: &str, rest: &str) -> Option<Step>;
}

/// An answer beside what is told.
pub fn asked(alloc: Global, got: Option<String>, told: &str) -> Option<Step> {
    Some(Step::Asked(got?, String::from_str(alloc, told).ok()?))
}

// A case of a table, and its name.
#[derive(Drop)]
struct Case<S> {
    name: String,
    scene: S,
}

impl<S: Scene> Case<S> {
    // The beginning of a case.
    fn new(alloc: Global, name: &str) -> Option<Self> {
        Some(Case {
            name: String::from_str(alloc, name).ok()?,
            scene: S::begin(alloc)?,
        })
    }

    // Does what a line says, and compares the answer, if it asks.
    fn add(&mut self, alloc: Global, tally: &mut Tally, number: u64, line: &str) -> Option<()> {
        let (word, rest) = cut(line);
        let name = &self.name;
        match self.scene.follow(alloc, word, rest) {
            Some(Step::Told) => Some(()),
            Some(Step::Asked(got, told)) => {
                let row = format!(in alloc; "{name}: {line}").ok()?;
                tally.add(
                    alloc,
                    number,
                    row.as_str(),
                    Some(got.as_str()),
                    told.as_str(),
                )
            }
            None => {
                let row = format!(in alloc; "{name}: {line}").ok()?;
                tally.add(alloc, number, row.as_str(), None, "an answer")
            }
        }
    }
}

/// Compares each line that asks, of each case of a file. None: memory was refused.
pub fn tally_cases<S: Scene>(alloc: Global, text: &str) -> Option<Tally> {
    let mut tally = Tally::new(alloc);
    let mut case: Case<S> = Case::new(alloc, "none")?;
    let mut number: u64 = 0;
    for line in text.lines() {
        number = number.saturating_add(1);
        if let Some(name) = line.strip_prefix("case ") {
            case = Case::new(alloc, name)?;
        } else if !line.is_empty() {
            case.add(alloc, &mut tally, number, line)?;
        }
    }
    Some(tally)
}
