// Pauses for whoever times a step.

/// Whether somebody times what is done.
#[derive(Clone, Copy, Debug, PartialEq, Eq)]
pub enum Pauses {
    /// Nobody does.
    Never,
    /// Somebody does, and answers each line by a line.
    Timed,
}

/// Prints a line. Where somebody times, waits until a line comes in or the input ends.
pub fn step(rt: &HostRuntime, pauses: Pauses, line: &str) -> Option<()> {
    println!(rt; "{line}").ok()?;
    if pauses == Pauses::Timed {
        let mut answer = String::new(rt.alloc());
        rt.read_line(&mut answer).ok()?;
    }
    Some(())
}

/// Where somebody times, prints a line and waits so; else does nothing.
pub fn pause(rt: &HostRuntime, pauses: Pauses, line: &str) -> Option<()> {
    match pauses {
        Pauses::Never => Some(()),
        Pauses::Timed => step(rt, pauses, line),
    }
}

/// Prints a word and a number, and waits where somebody times.
pub fn step_at(rt: &HostRuntime, pauses: Pauses, word: &str, number: usize) -> Option<()> {
    let line = format!(in rt.alloc(); "{word} {number}").ok()?;
    step(rt, pauses, line.as_str())
}
