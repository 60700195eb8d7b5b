// How an outcome is told: if it is good, as the caller says, and otherwise by its number, its detail and its reason.
ghost use Rattle.std.specs.Prelude.{IfOk};

use content::refusal::Refusal;
use std::io;

pub fn tell<T, F: FnOnce(T) -> io::Result<()>>(
    rt: &impl Print,
    what: &str,
    outcome: Result<T, Refusal>,
    good: F,
) -> io::Result<()>
    requires { IfOk outcome (λ value. F.pre good value) }
{
    match outcome {
        Ok(value) => good(value),
        Err(no) => println!(rt;
            "{what} is refused by number {} with detail {}: {no}.",
            no.number(),
            no.detail()
        ),
    }
}
