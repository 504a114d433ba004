//! The centre over the pure core.

ghost use Rattle.std.specs.Prelude.{◌≡◌, ◌<◌, ◌≤◌, ◌+◌, length, slice_index};

use crate::centre::{Centre, CentreRefusal, Resynced};
use auc_core::{Core, Event, Reply};
use std::marker::Model;
use std::sync::Wait;

/// A centre that owns its subscribers' numbers. It withholds none of them. Contracts see each subscriber's word and its
/// top, as those of its core: the word is the last number that was drawn or passed over, or `top + 1` after a draw was
/// refused.
#[derive(Drop)]
pub struct CoreCentre {
    core: Core,
}

impl Model for CoreCentre {
    ghost use Rattle.auc_core.specs.Step.{CoreState};

    ghost Value = { CoreState };

    ghost view = { λ centre. centre.core };
}

impl CoreCentre {
    /// The centre of a core's subscribers, with the core's numbers.
    pub fn new(core: Core) -> CoreCentre
        ensures { result ≡ core }
    {
        CoreCentre { core }
    }

    /// The subscriber's word: the last number that was drawn or passed over, or `top + 1` after a refused draw.
    pub fn word(&self, sub: u32) -> u64
        requires { sub < length self.now.words }
        ensures value { result ≡ slice_index self.now.words sub }
        ensures bound { result ≤ slice_index self.now.tops sub + 1 }
    {
        self.core.word(sub)
    }
}

impl Centre for CoreCentre {
    ghost use Rattle.std.specs.Prelude.{length, slice_index};
    ghost use Rattle.auc_vector.specs.InnerStretch.{stretch_none, stretch_both};
    ghost use Rattle.auc_vector.specs.Stretch.{kept_at, IsStretch};

    ghost subs = { λ state. length state.words };

    ghost top = { λ state sub. slice_index state.tops sub };

    ghost kept = { λ state sub. kept_at (slice_index state.tops sub) (slice_index state.words sub) };

    ghost name = { λ state. 0 };

    ghost goes = { IsStretch };

    ghost stays = { stretch_none };

    ghost joins = { stretch_both };

    ghost rises = { λ a b i es ws stretch. stretch.legal.ordered };

    fn next<R: Wait>(&mut self, _rt: &R, sub: u32) -> Result<u64, CentreRefusal> {
        match self.core.apply(Event::Draw(sub)) {
            Reply::Number(n) => Ok(n),
            Reply::Exhausted(word) => Err(CentreRefusal::Exhausted(word)),
            Reply::Moved(..) | Reply::InRange(..) | Reply::Beyond(..) => unreachable!(),
        }
    }

    fn resync<R: Wait>(
        &mut self,
        _rt: &R,
        sub: u32,
        seq_ms: u64,
    ) -> Result<Resynced, CentreRefusal> {
        match self.core.apply(Event::Resync(sub, seq_ms)) {
            Reply::Moved(from, to) => Ok(Resynced::Moved(from, to)),
            Reply::InRange(seen, seq) => Ok(Resynced::InRange(seen, seq)),
            Reply::Beyond(seen, seq) => Err(CentreRefusal::Beyond(seen, seq)),
            Reply::Number(..) | Reply::Exhausted(..) => unreachable!(),
        }
    }
}
