// Answers as C has them.
ghost use Rattle.std.specs.Prelude.{◌≡◌};
ghost use Rattle.c_lines.specs.Prelude.{code_of, fault_of, fault_left, refusal_number};

use c_lines::{DONE, Fault, Refusal};

/// The number of an answer.
pub fn code(answer: Result<(), Refusal>) -> i32
    ensures { result ≡ code_of answer }
{
    match answer {
        Ok(()) => DONE,
        Err(refusal) => refusal.number(),
    }
}

/// The same, and its fault where it is a refusal.
pub fn told(answer: Result<(), Refusal>, fault: &mut Fault) -> i32
    ensures code { result ≡ code_of answer }
    ensures fault { fault.new ≡ fault_left fault.old answer }
{
    match answer {
        Ok(()) => DONE,
        Err(refusal) => refused(refusal, fault),
    }
}

/// The number of a refusal, and its fault.
pub fn refused(refusal: Refusal, fault: &mut Fault) -> i32
    ensures code { result ≡ refusal_number refusal }
    ensures fault { fault.new ≡ fault_of refusal }
{
    *fault = refusal.fault();
    refusal.number()
}
