// A table of refused logins.
ghost use Rattle.std.specs.Prelude.{◌≡◌, ◌≤◌, ◌<◌, ◌++◌, [], ◌∷◌, length, IfSome, OnErr, OnOk};
ghost use Rattle.tool_login_limit.specs.LoginLimiter.{after_refusal, counted, held_of, is_of, is_slow, left_of, left_to, make_room, next_wait, one_more, place_of, refused_of, taken_out, waiting, with_wait};

use std::alloc::{AllocError, Allocator};
use std::marker::Model;

/// The most addresses of which logins are counted.
const MOST_ADDRESSES: usize = 1_024;

/// How many seconds a refused login counts.
const SECONDS_KEPT: u64 = 600;

/// From this refused login of an address on answers are slow, over all its connections.
const SLOW_FROM_OF_ADDRESS: u8 = 10;

/// How much later than the slow answer before it to the same address one goes, and how long that is waited for at most, in milliseconds.
const APART_MILLIS: u64 = 1_000;

const MOST_LEFT_MILLIS: u64 = 29_000;

/// A slow answer.
#[derive(Clone, Copy)]
pub(crate) struct DelayedAnswer {
    /// When it was ready, and how long it waits from then on, in milliseconds.
    ready: u64,
    wait: u64,
}

/// The refused logins of one address.
#[derive(Clone, Copy)]
pub(crate) struct RefusedLogin {
    address: u128,
    /// How many, of which each came within 10 minutes of the one before; 10 for more.
    count: u8,
    /// The second of the last one.
    last: u64,
    /// The last slow answer to it.
    held: DelayedAnswer,
}

impl RefusedLogin {
    fn is_of(self, address: u128) -> bool
        ensures { result ≡ is_of address self }
    {
        self.address == address
    }

    /// How many of them still count.
    fn counted(self, now: u64) -> u8
        ensures { result ≡ counted now self }
    {
        if now.saturating_sub(self.last) < SECONDS_KEPT {
            self.count
        } else {
            0
        }
    }

    /// How long the last slow answer to it still waits.
    fn left(self, now: u64) -> u64
        ensures { result ≡ left_of now self }
    {
        self.held
            .wait
            .saturating_sub(now.saturating_sub(self.held.ready))
    }

    /// The same, of which an answer that is ready now waits so long.
    fn waiting(self, now: u64, wait: u64) -> RefusedLogin
        ensures { result ≡ waiting now wait self }
    {
        RefusedLogin {
            held: DelayedAnswer { ready: now, wait },
            ..self
        }
    }
}

/// How many logins of each address were refused, the address whose last one is the oldest first. An address is a number that is its own; seconds count from
/// some beginning.
#[derive(Drop)]
pub struct LoginLimiter<A: Allocator + Copy> {
    list: Vec<RefusedLogin, A>,
    ghost within: { length list.items ≤ 1024 },
}

impl<A: Allocator + Copy> Model for LoginLimiter<A> {
    ghost use Rattle.std.specs.Prelude.{List};
    ghost use Rattle.tool_login_limit.specs.declared.login_limiter.RefusedLogin.{RefusedLogin};

    ghost Value = { List RefusedLogin };

    ghost view = { λ login_limiter. login_limiter.list.items };
}

impl<A: Allocator + Copy> LoginLimiter<A> {
    /// No login was refused. Takes no memory.
    pub fn nothing(alloc: A) -> LoginLimiter<A>
        ensures { result ≡ [] }
    {
        LoginLimiter {
            list: Vec::new(alloc),
        }
    }

    /// A login of an address was refused now. Of more than 1,024 addresses the one goes whose last refused login is the oldest. Refused memory, all stays as
    /// it was.
    pub fn refuse(&mut self, address: u128, now: u64) -> Result<(), AllocError>
        // Witness of noted: an equation of the table (`after_refusal`).
        ensures noted { OnOk result (self.new ≡ after_refusal self.old address now) }
        // Witness of stays: where memory is refused the table is as it was; `edits/a_guess_is_forgotten_where_memory_is_refused.edit`.
        ensures stays { OnErr result (self.new ≡ self.old) }
    {
        let guess = RefusedLogin {
            address,
            count: one_more(self.refused_of(address, now)),
            last: now,
            held: self.held(address),
        };
        let place = self.place_of(address);
        put_last(&mut self.list, place, guess)
    }

    /// How long a slow answer to an address waits that is ready now, in milliseconds of some clock: it goes a second after the one before it, 30 seconds from
    /// now at most. So an address has one in a second, over however many connections.
    pub fn hold(&mut self, address: u128, now: u64) -> u64
        // Witness of wait: an equation (`next_wait`, `left_to`); `edits/an_answer_goes_beside_the_one_before_it.edit`.
        ensures wait { result ≡ next_wait (left_to self.old address now) }
        // Witness of held: an equation (`with_wait`); `edits/an_answer_that_waits_is_not_noted.edit`.
        ensures held { self.new ≡ with_wait self.old address now result }
    {
        let wait = next_wait(self.left_to(address, now));
        if let Some(place) = self.place_of(address) {
            let guess = self.list[place];
            self.list[place] = guess.waiting(now, wait);
        }
        wait
    }

    /// The last slow answer to an address.
    #[tactic(auto, unfolding(crate::specs::LoginLimiter::held_of))]
    fn held(&self, address: u128) -> DelayedAnswer
        ensures { result ≡ held_of self.now address }
    {
        self.list
            .iter()
            .find(|guess| guess.is_of(address))
            .map(|guess| guess.held)
            .unwrap_or(DelayedAnswer { ready: 0, wait: 0 })
    }

    /// How long the last slow answer to an address still waits.
    #[tactic(auto, unfolding(crate::specs::LoginLimiter::left_to))]
    fn left_to(&self, address: u128, now: u64) -> u64
        ensures { result ≡ left_to self.now address now }
    {
        self.list
            .iter()
            .find(|guess| guess.is_of(address))
            .map(|guess| guess.left(now))
            .unwrap_or(0)
    }

    /// Whether answers to an address are slow: ten of its logins or more were refused, each within 10 minutes of the one before, and the last one of now.
    pub fn is_slow(&self, address: u128, now: u64) -> bool
        // Witness: an equation (`is_slow`).
        ensures { result ≡ is_slow self.now address now }
    {
        self.refused_of(address, now) >= SLOW_FROM_OF_ADDRESS
    }

    #[tactic(auto, unfolding(crate::specs::LoginLimiter::refused_of))]
    fn refused_of(&self, address: u128, now: u64) -> u8
        ensures { result ≡ refused_of self.now address now }
    {
        self.list
            .iter()
            .find(|guess| guess.is_of(address))
            .map(|guess| guess.counted(now))
            .unwrap_or(0)
    }

    /// Where the guess of an address is.
    #[tactic(auto, unfolding(crate::specs::LoginLimiter::place_of))]
    fn place_of(&self, address: u128) -> Option<usize>
        ensures place { result ≡ place_of self.now address }
        ensures within { IfSome result (λ place. place < length self.now) }
    {
        self.list.iter().position(|guess| guess.is_of(address))
    }
}

/// Puts a guess last, in the room of the one at a place; where there is none and all room is taken, in that of the first one.
fn put_last<A: Allocator + Copy>(
    list: &mut Vec<RefusedLogin, A>,
    place: Option<usize>,
    guess: RefusedLogin,
) -> Result<(), AllocError>
    requires within { IfSome place (λ place. place < length list.old.items) }
    requires few { length list.old.items ≤ 1024 }
    ensures put { OnOk result (list.new.items ≡ make_room (taken_out list.old.items place) ++ guess ∷ []) }
    ensures stays { OnErr result (list.new.items ≡ list.old.items) }
    ensures few { length list.new.items ≤ 1024 }
{
    if let Some(place) = place {
        let _old = list.remove(place);
        list.push_reserved(guess);
        return Ok(());
    }
    if list.len() >= MOST_ADDRESSES {
        let _oldest = list.remove(0);
        list.push_reserved(guess);
        return Ok(());
    }
    match list.push(guess) {
        Ok(()) => Ok(()),
        Err(_) => Err(AllocError),
    }
}

/// How long the next slow answer to an address waits, where the last one still waits so long.
fn next_wait(left: u64) -> u64
    ensures { result ≡ next_wait left }
{
    left.min(MOST_LEFT_MILLIS) + APART_MILLIS
}

fn one_more(count: u8) -> u8
    ensures { result ≡ one_more count }
{
    if count < SLOW_FROM_OF_ADDRESS {
        count + 1
    } else {
        count
    }
}
