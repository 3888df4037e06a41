//! The lines of the input, and their answers.

use crate::fields::Fields;
use crate::output::Output;
use std::alloc::Global;
use std::io::{BufRead, BufReader, Input, Print};

/// Answers the lines of the input in their order, and prints the answers once it has ended.
///
/// `answer` puts the answer to a request, of which it is given the keyword and the fields, and says
/// whether it has a request of this keyword. Where it has none, it is to put nothing.
pub fn answer_lines<R, A>(rt: &R, alloc: Global, answer: A) -> anyhow::Result<()>
where
    R: Input + Print,
    A: Fn(&mut Output, &[u8], Fields) -> anyhow::Result<bool>,
    requires { A.IsAlwaysCallable answer }
{
    let mut out = Output::new(alloc);
    for line in BufReader::new(alloc, rt.reader())?.lines(alloc) {
        answer_line(&mut out, line?.as_bytes(), &answer)?;
    }
    rt.print(out.as_str())?;
    Ok(())
}

/// Answers one line.
fn answer_line<A>(out: &mut Output, line: &[u8], answer: &A) -> anyhow::Result<()>
where
    A: Fn(&mut Output, &[u8], Fields) -> anyhow::Result<bool>,
    requires { A.IsAlwaysCallable answer.now }
{
    let mut fields = Fields::new(line);
    let keyword = fields.next();
    if !answer(out, keyword, fields)? {
        out.put_bytes(line)?;
    }
    out.put("\n")
}
