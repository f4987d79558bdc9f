// Document 01's number and values for each case of an answer.
ghost use Rattle.std.specs.Prelude.{◌≡◌};
ghost use Rattle.query_solid.specs.Answers as Answers;

use geometry::hit::Hit;
use refusals::Refusal;

// How many entries are drawn.
pub fn drawn_count(v: Result<usize, Refusal>) -> usize
    ensures { result ≡ Answers.drawn_count v }
{
    match v {
        Ok(n) => n,
        Err(_) => 0,
    }
}

pub fn distance(a: Result<Hit, Refusal>) -> f64
    ensures { result ≡ Answers.distance a }
{
    match a {
        Ok(h) => h.t,
        Err(_) => 0.0,
    }
}

pub fn met(a: Result<Hit, Refusal>) -> bool
    ensures { result ≡ Answers.met a }
{
    match a {
        Ok(h) => h.ok,
        Err(_) => false,
    }
}

pub fn inside(a: Result<bool, Refusal>) -> bool
    ensures { result ≡ Answers.inside a }
{
    match a {
        Ok(b) => b,
        Err(_) => false,
    }
}
