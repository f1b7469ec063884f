// CENSUS: how many places a guest has.
#![tactic(auto)]

ghost use Rattle.std.specs.Prelude.{◌≡◌};
ghost use Rattle.rules.specs.Census.{in_leaf, holding, tally, census};
ghost use Rattle.rules.specs.State.{state, N};
ghost use Rattle.checks.specs.Answer.{gave};
ghost use Rattle.census.specs.Census.{held, tallied};

use checks::answer::Answer;
use checks::begin::begin_census;
use checks::leaves;
use checks::refusal::Refusal;
use checks::state::State;
use entries::leaf::LeafWord;

// How many places the guest `asid` has.
pub fn census(table: &[u64], memory: &[u64], asid: u64) -> Result<Answer, Refusal>
    ensures { gave result table.now memory.now
        ≡ census (state table.now memory.now) asid }
{
    let state = State::new(table, memory);
    begin_census(&state, asid)?;
    let places = count_places(&state, asid)?;
    Ok(Answer::Count(places))
}

// How many places a guest has, or the first refusal that was met.
fn count_places(state: &State<'_>, guest: u64) -> Result<u64, Refusal>
    ensures { tallied result ≡ tally state.now guest (N state.now) }
{
    let mut places = 0;
    for frame in 0..state.covered() {
        if holding_at(state, guest, frame)?.is_some() {
            places += 1;
        }
    }
    Ok(places)
}

// A frame's place of a guest: its address, where there is one.
#[tactic(auto, unfolding(rules::specs::Census::holding, rules::specs::Census::in_entry, words::specs::Choice::pick))]
fn holding_at(state: &State<'_>, guest: u64, frame: usize) -> Result<Option<u64>, Refusal>
    ensures { held result ≡ holding state.now guest frame }
{
    let page = state.entry(frame)?;
    if page.fixed {
        return in_leaf(leaves::consulted(state, page, guest));
    }
    let own = page.validated & (page.asid == guest);
    Ok(own.then_some(page.address))
}

#[tactic(auto, unfolding(rules::specs::Census::in_leaf))]
fn in_leaf(word: LeafWord) -> Result<Option<u64>, Refusal>
    ensures { held result ≡ in_leaf word }
{
    match word {
        LeafWord::Absent => Ok(None),
        LeafWord::Present(gpa) => Ok(Some(gpa)),
        LeafWord::Misshapen => Err(Refusal::BrokenLeaf),
    }
}
