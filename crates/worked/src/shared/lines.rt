// Lines on standard output.
use matrix::refusal;
use matrix_form::refusal::Refusal;
use std::io;

// The R line of a refusal, of a call that reads no file.
pub(crate) fn print_refusal(rt: &impl Print, why: Refusal) -> io::Result<()> {
    println!(rt; "R\t{}\t0", refusal::number(why))
}

// The lines of a call's answer, as `print` writes them, or its R line.
pub(crate) fn print_answer<T, F: FnOnce(T) -> io::Result<()>>(
    rt: &impl Print,
    answer: Result<T, Refusal>,
    print: F,
) -> io::Result<()>
    requires { F.IsAlwaysCallable print }
{
    match answer {
        Ok(found) => print(found),
        Err(why) => print_refusal(rt, why),
    }
}
