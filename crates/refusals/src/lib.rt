// Refusals: what is turned away, under which number, at which place, and in which order. It knows the case and where the entries of its file
// stand, and nothing of bytes or searches.
#![tactic(auto)]

ghost use Rattle.std.specs.Prelude.{◌≡◌, [], ◌∷◌};
ghost use Rattle.sets.specs.Lists.{only_if};
ghost use Rattle.refusals.specs.Refusals.{refusal, judged_by, or_else};

// A refusal: its number in the scope's table, and its place. It is what a judgement errs with: a judgement is `Ok` where nothing is wrong. The number is
// no enum: the definitions write it as `refusal 7 place`, theorem `file-exactly` speaks of every number, and the programs print it.
#[derive(Clone, Copy)]
pub struct Refusal {
    pub number: u8,
    pub place: usize,
}

// A single check: the refusal where the number is met.
pub fn refused_if(met: bool, number: u8, place: usize) -> Result<(), Refusal>
    ensures { result ≡ judged_by (only_if met (refusal number place) ∷ []) }
{
    if met {
        Err(Refusal {
            number: number,
            place: place,
        })
    } else {
        Ok(())
    }
}

// An earlier judgement, or where it is good a later one.
pub fn or_else(earlier: Result<(), Refusal>, later: Result<(), Refusal>) -> Result<(), Refusal>
    ensures { result ≡ or_else earlier later }
{
    earlier?;
    later
}
