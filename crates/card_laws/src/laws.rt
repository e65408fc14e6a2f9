//! Tenants erased from the life of a card. Each function does nothing: its contract is the law.
//!
//! A group is any set of functions. A life without the group's own deeds has none of its clients' messages, its queues' services, its guests'
//! own writes, their coming and going, and what else is done for its functions. What the administrator decides of policies stays, also of the
//! group's.
ghost use Rattle.std.specs.Prelude.{◌≡◌, ℕ, ◌<◌, Bool, false, List, length};
ghost use Rattle.std.specs.List.{All};
ghost use Rattle.card.specs.Alike.{AreAlike, IsCard};
ghost use Rattle.card.specs.Card.{CardState};
ghost use Rattle.card.specs.Life.{Deed, HasLived, IsDeed, IsLivedAlike, card_after, given, world_of};
ghost use Rattle.card_laws.specs.Erased.{AreAlikeOutside, BeforeEach, HasOwnVlans, LeavesNoInput, StaysApart, erase, inputs};

use card::laws::{calls_are_a_life, heard_by_bounded_work, lived_by_ones_own};

/// Without the own deeds of a group, each function outside lives the same, whatever the group's functions were before: the same replies byte
/// for byte, orders, ends of its connection, observations and vectors; the same accesses to its memory, with what they read, in their order;
/// the same frames that it sends; and it is the same at the end. It is so where, at each service of the group's, the settings that are then in
/// force keep the group apart, and where two things, which are no deeds of the function's, are the same in both lives: whether another function
/// holds the address that a driver outside asks for, and whether a frame from the wire falls to a default pool outside.
pub fn erased()
    ensures lived { (group : ℕ → Bool) (p : ℕ) (c d : CardState) (xs : List Deed) →
        p < length (world_of c).functions → group p ≡ false → IsCard c → IsCard d → All IsDeed xs
        → AreAlikeOutside group c d → StaysApart group c xs
        → inputs group c xs ≡ inputs group d (erase group xs)
        → IsLivedAlike p c xs d (erase group xs) }
    // it is given the same, so that each law of a card which speaks of what a life gives says it of the two
    ensures given { (group : ℕ → Bool) (p : ℕ) (c d : CardState) (xs : List Deed) →
        p < length (world_of c).functions → group p ≡ false → IsCard c → IsCard d → All IsDeed xs
        → AreAlikeOutside group c d → StaysApart group c xs
        → inputs group c xs ≡ inputs group d (erase group xs)
        → given p c xs ≡ given p d (erase group xs) }
    // and the two cards differ in the group alone again, so that what is said of a life is said of what comes after it
    ensures cards { (group : ℕ → Bool) (p : ℕ) (c d : CardState) (xs : List Deed) →
        p < length (world_of c).functions → group p ≡ false → IsCard c → IsCard d → All IsDeed xs
        → AreAlikeOutside group c d → StaysApart group c xs
        → inputs group c xs ≡ inputs group d (erase group xs)
        → AreAlikeOutside group (card_after c xs) (card_after d (erase group xs)) }
    // so it is after lists of calls
    ensures calls { (group : ℕ → Bool) (p : ℕ) (a b c d : CardState) (xs : List Deed) →
        p < length (world_of a).functions → group p ≡ false → IsCard a → IsCard c → All IsDeed xs
        → AreAlikeOutside group a c → StaysApart group a xs
        → inputs group a xs ≡ inputs group c (erase group xs)
        → HasLived xs a b → HasLived (erase group xs) c d → AreAlike p b d }
    // one card may be the other: from itself a card differs in nothing
    ensures itself { (group : ℕ → Bool) (c : CardState) → AreAlikeOutside group c c }
{
    lived_by_ones_own();
    heard_by_bounded_work();
    calls_are_a_life();
}

/// Whatever the group does: two lives that differ in the group's own deeds alone, and in which these two things are the same, are the same to
/// each function outside.
pub fn whatever_a_group_does()
    ensures { (group : ℕ → Bool) (p : ℕ) (c d : CardState) (xs ys : List Deed) →
        p < length (world_of c).functions → group p ≡ false → IsCard c → IsCard d
        → All IsDeed xs → All IsDeed ys
        → AreAlikeOutside group c d → erase group xs ≡ erase group ys
        → StaysApart group c xs → StaysApart group d ys
        → inputs group c xs ≡ inputs group d ys
        → IsLivedAlike p c xs d ys }
{
    lived_by_ones_own();
    heard_by_bounded_work();
}

/// It is so by the policies alone, where they give the group VLANs that it shares with no function outside, where addresses may be chosen by
/// functions outside alone or by none of them, and where the default pool is none outside. Then nothing stays as input, and nothing that the
/// group's guests do is asked.
pub fn erased_by_policies()
    ensures lived { (group : ℕ → Bool) (p : ℕ) (c d : CardState) (xs : List Deed) →
        p < length (world_of c).functions → group p ≡ false → IsCard c → IsCard d → All IsDeed xs
        → AreAlikeOutside group c d
        → BeforeEach (HasOwnVlans group) c xs → BeforeEach (LeavesNoInput group) c xs
        → IsLivedAlike p c xs d (erase group xs) }
    // whatever the group does: two lives that differ in its own deeds alone are the same to each function outside
    ensures whatever { (group : ℕ → Bool) (p : ℕ) (c d : CardState) (xs ys : List Deed) →
        p < length (world_of c).functions → group p ≡ false → IsCard c → IsCard d
        → All IsDeed xs → All IsDeed ys
        → AreAlikeOutside group c d → erase group xs ≡ erase group ys
        → BeforeEach (HasOwnVlans group) c xs → BeforeEach (LeavesNoInput group) c xs
        → BeforeEach (HasOwnVlans group) d ys → BeforeEach (LeavesNoInput group) d ys
        → IsLivedAlike p c xs d ys }
    // each of the two does its part by itself: such VLANs keep the group apart
    ensures apart { (group : ℕ → Bool) (c : CardState) (xs : List Deed) → IsCard c → All IsDeed xs
        → BeforeEach (HasOwnVlans group) c xs → StaysApart group c xs }
    // and such addresses leave no input
    ensures inputs { (group : ℕ → Bool) (p : ℕ) (c d : CardState) (xs : List Deed) →
        p < length (world_of c).functions → group p ≡ false → IsCard c → IsCard d → All IsDeed xs
        → AreAlikeOutside group c d → StaysApart group c xs → BeforeEach (LeavesNoInput group) c xs
        → inputs group c xs ≡ inputs group d (erase group xs) }
{
    lived_by_ones_own();
    heard_by_bounded_work();
}
