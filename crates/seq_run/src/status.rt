ghost use Rattle.std.specs.Prelude.{◌≡◌};
ghost use Rattle.seq_run.specs.Statuses.{code_of, code_of_verdict, status_of};

use run_files::Stop;

/// What is said of the job of files that can be used, or that a trial made.
#[derive(Clone, Copy, PartialEq, Eq, Debug)]
pub enum Verdict {
    /// A plan was found, or the least extent; the plan that was given is valid, its claim passes; or the outlines are printed.
    Done,
    /// There is no plan.
    NoPlan,
    /// A plan was found, and the extent below was left undecided.
    Open,
    /// The budget, or the width of numbers, left it undecided.
    Undecided,
    /// The plan that was given isn't valid, or its claim doesn't pass.
    Fault,
}

/// How a run ends.
#[derive(Clone, Copy, PartialEq, Eq, Debug)]
pub enum Status {
    Answered(Verdict),
    WrongWords,
    ReadFault,
    WrongFile,
    WriteFault,
    NoMemory,
}

fn code_of_verdict(verdict: Verdict) -> u8
    ensures { result ≡ code_of_verdict verdict }
{
    match verdict {
        Verdict::Done => 0,
        Verdict::NoPlan => 1,
        Verdict::Open => 5,
        Verdict::Undecided => 6,
        Verdict::Fault => 7,
    }
}

/// The exit status. Its numbers are those of `specs/Statuses`, of which the clauses of `run` speak.
pub fn code_of(status: Status) -> u8
    ensures { result ≡ code_of status }
{
    match status {
        Status::Answered(verdict) => code_of_verdict(verdict),
        Status::WrongWords => 2,
        Status::ReadFault => 3,
        Status::WrongFile => 4,
        Status::WriteFault => 8,
        Status::NoMemory => 9,
    }
}

/// How a run ends that stops at its files.
pub fn status_of(stop: &Stop) -> Status
    ensures { result ≡ status_of stop.now }
{
    match stop {
        Stop::Read(_) => Status::ReadFault,
        Stop::Input(_, _) => Status::WrongFile,
        Stop::Memory => Status::NoMemory,
    }
}
