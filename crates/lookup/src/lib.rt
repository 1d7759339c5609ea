// Lookup: the descent for a name, with a trail of the chunks that it goes through.
#![tactic(auto)]

ghost use Rattle.std.specs.Prelude.{◌≡◌, false, cond, ◌+◌, ◌*◌, ◌^◌, ◌≤◌, ◌<◌, length, set};
ghost use Rattle.search.specs.Search.{cost_at};
ghost use Rattle.opening.specs.Opened.{opened};
ghost use Rattle.lookup.specs.Lookup.{answer_of, is_refusal, looked_up, trail_after};
ghost use Rattle.lookup.specs.Step.{way_at, outcome_at, Descended};
ghost use Rattle.lookup.specs.Complete.{Complete};
ghost use Rattle.lookup.specs.Counted.{Counted};
ghost use Rattle.lookup.specs.Blocks.{OnlyBlocks};

use chunk::Chunk;
use header::Record;
use refusals::{Refusal, Rule};
use report::Report;
use search::Search;
use seek::Searched;

// What a descent takes: how many chunks it goes through, and how many comparisons of the asked name it makes in them.
#[derive(Clone, Copy)]
pub struct Effort {
    pub chunks: u32,
    pub comparisons: u32,
}

// What a lookup answers, behind what its descent took.
#[derive(Clone, Copy)]
pub enum Answer {
    Found(Effort, Report),
    Absent(Effort),
}

// The same without the effort, for a search that leaves no trail: the entry of the name, or that it is absent.
pub type Reply = Result<Option<Report>, Refusal>;

// What chunk c, which has to be a listing chunk, answers to a name; n is the count of the descent's chunks, `spent` how many comparisons were made before.
fn ask_listing(
    file: &[u8],
    book: Record,
    name: &[u8],
    c: u64,
    n: u32,
    spent: u32,
) -> Result<Answer, Refusal>
    requires { spent < 0x100000 }
    ensures { result ≡ answer_of book (record { chunks = n; comparisons = spent + cost_at file.now book name.now c }) (outcome_at file.now book name.now 1 c) }
{
    match search::search_in(file, book, name, c) {
        Some(Search::Found(count, x)) => {
            let sum = spent + count;
            let effort = Effort {
                chunks: n,
                comparisons: sum,
            };
            Ok(Answer::Found(effort, x))
        }
        Some(Search::Next(missed, _)) => {
            let total = spent + missed;
            let effort = Effort {
                chunks: n,
                comparisons: total,
            };
            Ok(Answer::Absent(effort))
        }
        None => Err(refusals::refuse(Rule::BadRecord)),
    }
}

// Where chunk c leads the descent for a name: down to a chunk, or nowhere, with how many comparisons that took; none where it is no index chunk.
fn ask_index(file: &[u8], book: Record, name: &[u8], c: u64) -> Option<Searched<Option<u64>>>
    ensures { result ≡ way_at file.now book name.now c }
{
    match book::checked_chunk(file, book, c) {
        Ok(Chunk::Index) => Some(search::child_in(file, book, name, c)),
        Ok(Chunk::Listing(_, _)) => None,
        Err(_) => None,
    }
}

// Whether an answer is a refusal.
fn is_refusal(answer: Result<Answer, Refusal>) -> bool
    ensures { result ≡ is_refusal answer }
{
    answer.is_err()
}

// Chunk c goes to place i of the trail, unless the answer is a refusal.
fn mark_trail(refused: bool, trail: &mut [u32], i: usize, c: u64)
    requires { (i < length trail.old) × (refused ≡ false → c < 2 ^ 32) }
    ensures { trail.new ≡ cond refused trail.old (set trail.old i c) }
{
    if refused {
        return;
    }
    trail[i] = c as u32;
}

// The descent from chunk c of a level on, which is chunk i of the whole descent; `spent` is how many comparisons it made before. The trail is written on the
// way back, once the outcome is known.
fn descend(
    file: &[u8],
    book: Record,
    name: &[u8],
    level: u64,
    c: u64,
    trail: &mut [u32],
    i: usize,
    spent: u32,
) -> Result<Answer, Refusal>
    requires { (book.count ≤ 4096) × (1 ≤ level) × (i + level ≤ 5) × (5 ≤ length trail.old) × (spent ≤ i * 0x20000) }
    ensures { Descended file.now book name.now level c i spent trail.old result trail.new }
{
    let n = (i + 1) as u32;
    if level < 2 {
        let answer = ask_listing(file, book, name, c, n, spent);
        mark_trail(is_refusal(answer), trail, i, c);
        return answer;
    }
    let Some(chosen) = ask_index(file, book, name, c) else {
        return Err(refusals::refuse(Rule::BadRecord));
    };
    let total = spent + chosen.count;
    match chosen.answer {
        Some(child) => {
            let answer = descend(file, book, name, level - 1, child, trail, i + 1, total);
            mark_trail(is_refusal(answer), trail, i, c);
            answer
        }
        None => {
            let effort = Effort {
                chunks: n,
                comparisons: total,
            };
            mark_trail(false, trail, i, c);
            Ok(Answer::Absent(effort))
        }
    }
}

// The entry of a name, by the descent that the record tells of. Its chunks go to the front of the trail; a refusal leaves the trail as it was.
pub fn lookup(file: &[u8], book: Record, name: &[u8], trail: &mut [u32]) -> Result<Answer, Refusal>
    ensures answer { result ≡ looked_up file.now book name.now (length trail.old) }
    ensures places { trail.new ≡ trail_after file.now book name.now trail.old }
    ensures complete { opened file.now ≡ Ok book → 1 ≤ length name.now → length name.now ≤ 1024 → 5 ≤ length trail.old → Complete file.now book name.now trail.old result trail.new }
    ensures counted { Counted file.now book name.now result }
    ensures blocks { OnlyBlocks file.now book name.now trail.old result trail.new }
{
    let good_name = names::is_askable(name);
    let good_record = book::record_fits(file, book);
    if !good_name {
        return Err(refusals::refuse(Rule::BadName));
    }
    if trail.len() < 5 {
        return Err(refusals::refuse(Rule::ShortTrail));
    }
    if !good_record {
        return Err(refusals::refuse(Rule::BadRecord));
    }
    descend(
        file,
        book,
        name,
        book.depth,
        book::top_chunk(book),
        trail,
        0,
        0,
    )
}
