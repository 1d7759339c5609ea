// Many names in one call: the book is opened once, each name is then looked up in it with no chunk checked again, and its result is four numbers of eight bytes.
#![tactic(auto)]

ghost use Rattle.std.specs.Prelude.{◌≡◌, ◌+◌, ◌*◌, ◌≤◌, length};
ghost use mathlib.Core.List.{[], ◌∷◌, flat_map};
ghost use Rattle.std.proofs.lemmas.List.Edits.{sets};
ghost use Rattle.fields.specs.Le.{bytes};
ghost use Rattle.batch.specs.Batch.{asked_at, names_in, result_of, batch_of, answers_in};
ghost use Rattle.batch.specs.Step.{counted_as, results_by, batch_in, answers_by};

use header::Record;
use lookup::Reply;
use refusals::{Refusal, Rule};

// The length of the name at a place, and the name's place.
fn asked_at(names: &[u8], at: usize) -> Option<(u64, usize)>
    ensures { result ≡ asked_at names.now at }
{
    let (n, start) = encint::read(names, at)?;
    if names.len() - start < n as usize {
        return None;
    }
    Some((n, start))
}

// How many names there are, unless one is cut off.
fn count_names(names: &[u8]) -> Option<usize>
    ensures { result ≡ counted_as 0 (names_in names.now) }
{
    let mut n: usize = 0;
    let mut at: usize = 0;
    while at < names.len() {
        let (len, start) = asked_at(names, at)?;
        at = start + len as usize;
        n += 1;
    }
    Some(n)
}

// Writes four numbers at a place.
fn put_four(out: &mut [u8], at: usize, status: u64, section: u64, offset: u64, size: u64)
    requires { at + 32 ≤ length out.old }
    ensures { out.new ≡ sets out.old at (flat_map (bytes 8) (status ∷ section ∷ offset ∷ size ∷ [])) }
{
    put::put64(out, at, status);
    put::put64(out, at + 8, section);
    put::put64(out, at + 16, offset);
    put::put64(out, at + 24, size);
}

// Writes the result of a reply at a place.
fn put_result(out: &mut [u8], at: usize, reply: Reply)
    requires { at + 32 ≤ length out.old }
    ensures { out.new ≡ sets out.old at (result_of reply) }
{
    match reply {
        Ok(Some(x)) => put_four(out, at, 0, x.section, x.offset, x.size),
        Ok(None) => put_four(out, at, 255, 0, 0, 0),
        Err(r) => put_four(out, at, r.number() as u64, 0, 0, 0),
    }
}

// Answers the names one by one, in a book that was opened.
fn put_results(file: &[u8], book: Record, names: &[u8], out: &mut [u8])
    requires { 32 * length (names_in names.now).list ≤ length out.old }
    ensures { out.new ≡ sets out.old 0 (results_by file.now book (names_in names.now).list) }
{
    let mut at: usize = 0;
    let mut to: usize = 0;
    while at < names.len() {
        let Some((n, start)) = asked_at(names, at) else {
            return;
        };
        let len = n as usize;
        put_result(
            out,
            to,
            fetch::fetch(file, book, &names[start..start + len]),
        );
        at = start + len;
        to += 32;
    }
}

// The same, unless a name is cut off or the results have no room: nothing is written before both are known.
fn batch_in(file: &[u8], book: Record, names: &[u8], answers: &mut [u8]) -> Result<(), Refusal>
    ensures answer { result ≡ batch_in names.now (length answers.old) }
    ensures answers { answers.new ≡ answers_by file.now book names.now answers.old }
{
    let Some(n) = count_names(names) else {
        return Err(refusals::refuse(Rule::BadBatch));
    };
    if answers.len() / 32 < n {
        return Err(refusals::refuse(Rule::BadBatch));
    }
    put_results(file, book, names, answers);
    Ok(())
}

// Looks up every name, one behind another in `names`, each an ENCINT of its length and its bytes. The book is opened first, and its refusal answers
// the whole call. Each result takes 32 bytes: status (0 found, 255 absent, 15 for a name that cannot be asked), section, offset, length.
pub fn batch(file: &[u8], names: &[u8], answers: &mut [u8]) -> Result<(), Refusal>
    ensures answer { result ≡ batch_of file.now names.now (length answers.old) }
    ensures answers { answers.new ≡ answers_in file.now names.now answers.old }
{
    let book = opening::open(file)?;
    batch_in(file, book, names, answers)
}
