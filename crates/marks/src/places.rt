// The places of a memo: which of them the grant of a supply move has. Nothing is promised of the choice but that there is such a place: a place that has the
// answers of another grant is cleared for this one, so a choice takes or saves time alone.
ghost use Rattle.std.specs.Prelude.{◌<◌, length};

use crate::answers::Answers;
use rules::Move;

// Places are given one after the other. A grant is looked for where the last one with the same remainder stands; where two such grants take turns, each supply
// move has a place of its own, so that there are never more places than supply moves.
#[derive(Drop)]
pub(crate) struct Places<const GRANTS: usize> {
    // Of the grants with each remainder, the place of the last one.
    latest: [u16; GRANTS],
    // Of each supply move, FIN's idle one first, the place that was given for it.
    own: [Option<u16>; GRANTS],
    // How many are given.
    given: u16,
    ghost some: { 0 < GRANTS },
}

impl<const GRANTS: usize> Places<GRANTS> {
    // None is given.
    pub fn new() -> Self
        requires { 0 < GRANTS }
    {
        Places {
            latest: [0; GRANTS],
            own: [None; GRANTS],
            given: 0,
        }
    }

    // The place that was given for a supply move, or else the next one.
    fn own_place(&mut self, offer: Move) -> u16 {
        let position = offer.row.wrapping_add(1) as usize % GRANTS;
        if let Some(place) = self.own[position] {
            return place;
        }
        let place = self.given;
        self.own[position] = Some(place);
        self.given = place.saturating_add(1);
        place
    }

    // The place of the grant of a supply move. Where none is left, the last one serves.
    pub fn place_for(&mut self, offer: Move, answers: &[Option<Answers>]) -> usize
        requires { 0 < length answers.now }
        ensures { result < length answers.now }
    {
        let remainder = offer.set as usize % GRANTS;
        if !has_grant(answers, self.latest[remainder], offer.set) {
            let place = self.own_place(offer);
            self.latest[remainder] = place;
        }
        (self.latest[remainder] as usize).min(answers.len() - 1)
    }
}

// Whether a place has the answers of the grant.
fn has_grant(answers: &[Option<Answers>], place: u16, grant: u16) -> bool {
    answers.get(place as usize).is_some_and(|found| found
        .as_ref()
        .is_some_and(|known| known.grant == grant))
}
