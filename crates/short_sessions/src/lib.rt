// The sessions of at most three messages from a list, one after another: shorter first, then by the messages' places in the list; by value, and in lent memory.
#![tactic(auto)]

ghost use Rattle.std.specs.Prelude.{◌≡◌, [], ◌∷◌, suc, length};
ghost use Rattle.std.proofs.Math.Option.{some};
ghost use Rattle.short_sessions.specs.Sessions.{following};
ghost use Rattle.short_sessions.specs.Held.{advanced, held, held_in, moved};
ghost use Rattle.short_sessions.specs.Values.{found, places_of};

// By value ------------------------------------------------------------------------------------

// A session: the places of its messages in the list, the first one's being 0.
#[derive(Clone, Copy, Debug, PartialEq, Eq)]
pub enum Session {
    Empty,
    One(u8),
    Two(u8, u8),
    Three(u8, u8, u8),
}

// The first session: no message.
pub fn empty() -> Session
    ensures { places_of result ≡ [] }
{
    Session::Empty
}

// After one message, of a list whose last place is `last`.
// Each length has a function: one over arrays would take each session apart and put it together again in an arm for each length.
fn after_one(last: u8, a: u8) -> Session
    ensures { some (places_of result) ≡ following (suc last) (a ∷ []) }
{
    if a < last {
        return Session::One(a + 1);
    }
    Session::Two(0, 0)
}

// After two.
fn after_two(last: u8, a: u8, b: u8) -> Session
    ensures { some (places_of result) ≡ following (suc last) (a ∷ b ∷ []) }
{
    if b < last {
        return Session::Two(a, b + 1);
    }
    if a < last {
        return Session::Two(a + 1, 0);
    }
    Session::Three(0, 0, 0)
}

// After three.
fn after_three(last: u8, a: u8, b: u8, c: u8) -> Option<Session>
    ensures { found result ≡ following (suc last) (a ∷ b ∷ c ∷ []) }
{
    if c < last {
        return Some(Session::Three(a, b, c + 1));
    }
    if b < last {
        return Some(Session::Three(a, b + 1, 0));
    }
    if a < last {
        return Some(Session::Three(a + 1, 0, 0));
    }
    None
}

// The session after `s`, of a list of `k` messages.
pub fn next(k: u8, s: Session) -> Option<Session>
    ensures { found result ≡ following k (places_of s) }
{
    let last = k.checked_sub(1)?;
    match s {
        Session::Empty => Some(Session::One(0)),
        Session::One(a) => Some(after_one(last, a)),
        Session::Two(a, b) => Some(after_two(last, a, b)),
        Session::Three(a, b, c) => after_three(last, a, b, c),
    }
}

// In lent memory ------------------------------------------------------------------------------

// The session from a list of `k` messages that four bytes hold.
fn session_in(k: u8, memory: &[u8]) -> Option<Session>
    ensures { found result ≡ held_in k memory.now }
{
    match *memory {
        [0, _, _, _] => Some(Session::Empty),
        [1, a, _, _] if a < k => Some(Session::One(a)),
        [2, a, b, _] if a.max(b) < k => Some(Session::Two(a, b)),
        [3, a, b, c] if a.max(b).max(c) < k => Some(Session::Three(a, b, c)),
        _ => None,
    }
}

// The four bytes that hold a session.
#[tactic(auto, unfolding(crate::specs::Held::held))]
fn bytes_of(s: Session) -> [u8; 4]
    ensures { result ≡ held (places_of s) }
{
    match s {
        Session::Empty => [0; 4],
        Session::One(a) => [1, a, 0, 0],
        Session::Two(a, b) => [2, a, b, 0],
        Session::Three(a, b, c) => [3, a, b, c],
    }
}

// From the session that a memory holds, of a list of `k` messages, to the next one, which is answered too. Where there is none, or the memory holds none, it is
// as it was. The first session is held by four bytes of zero.
pub fn advance(k: u8, memory: &mut [u8]) -> Option<Session>
    ensures { moved (found result) memory.new ≡ advanced k memory.old }
{
    let s = session_in(k, memory)?;
    let t = next(k, s)?;
    memory.copy_from_slice(&bytes_of(t));
    Some(t)
}
