//! Laws of a card. Each function does nothing: its contract is the law.
ghost use Rattle.std.specs.Prelude.{◌≡◌, ℕ, ◌<◌, ◌≤◌, ◌++◌, false, List, length};
ghost use Rattle.std.specs.List.{All};
ghost use Rattle.device.specs.Events.{Event};
ghost use Rattle.device.specs.World.{world_after};
ghost use Rattle.live_run.specs.Live.{Noted};
ghost use Rattle.mailbox_laws.specs.Turns.{sets_registers};
ghost use Rattle.card.specs.Alike.{AreAlike, IsCard, IsToldAlike, is_address_held};
ghost use Rattle.card.specs.Card.{CardState};
ghost use Rattle.card.specs.Life.{Deed, HasLived, IsDeed, IsLivedAlike, card_after, events_heard, given, live_deeds, world_of};
ghost use Rattle.card.specs.Told.{told};

/// What a client is told, and what the shell is told for it, is by its message and its own function alone: in two cards in which function p
/// is the same, whatever the others are, one message has the same reply, the same order and the same end of the connection, and function p
/// is the same again. Where the driver asks for an address by its mailbox, and its policy lets it choose one, it learns besides whether another
/// function holds that address.
pub fn told_by_ones_own()
    ensures { (p : ℕ) (c d : CardState) (message : List ℕ) (files : ℕ) → p < 64
        → IsCard c → IsCard d
        → p < length c.hosted.device.world.functions → p < length d.hosted.device.world.functions
        → is_address_held c p message files ≡ is_address_held d p message files
        → AreAlike p c d
        → IsToldAlike p (told c p message files) (told d p message files) }
{}

/// To each function, the life of a card is as if it were alone on it: what it shows, what is done with its memory, the frames that it sends,
/// and what it is then, are by what the life gives it, and by nothing else. That is its own deeds, the frames that its filters accept or that
/// fall to it as default pool, and that a policy takes an address from it that its driver had chosen. Of the others it learns, in its own deeds
/// alone, whether one holds the address that its driver asks for and may choose, or owns the address of its policy.
///
/// So two lives that give function p the same, of two cards in which it is the same, are the same to it, however many other functions there
/// are in the one or the other and whatever they do. One of the two may be of a card on which p has the one guest, by p's own deeds and frames
/// from the wire alone: so p lives on any card whose other functions send it no frame, and hold no address that it asks for.
pub fn lived_by_ones_own()
    // what is so of a card between two calls is so after any deeds
    ensures stands { (c : CardState) (xs : List Deed) → IsCard c → All IsDeed xs
        → IsCard (card_after c xs) }
    ensures alike { (p : ℕ) (c d : CardState) (xs ys : List Deed) → p < 64
        → IsCard c → IsCard d
        → p < length c.hosted.device.world.functions → p < length d.hosted.device.world.functions
        → All IsDeed xs → All IsDeed ys
        → AreAlike p c d → given p c xs ≡ given p d ys
        → IsLivedAlike p c xs d ys }
{}

/// Calls one after another are one life, so that all that is said of lives is said of every list of calls.
pub fn calls_are_a_life()
    ensures lived { (a b c : CardState) (xs ys : List Deed) → HasLived xs a b → HasLived ys b c
        → HasLived (xs ++ ys) a c }
    // events that change no register of the physical function are deeds, and so are the writes of guests meanwhile
    ensures deeds { (c : CardState) (events : List Event) (noted : List Noted) → All (λ e. sets_registers e ≡ false) events
        → All IsDeed (live_deeds c events noted) }
    // function p is the same after two lists of calls that give it the same
    ensures alike { (p : ℕ) (a b c d : CardState) (xs ys : List Deed) → p < 64
        → IsCard a → IsCard c
        → p < length a.hosted.device.world.functions → p < length c.hosted.device.world.functions
        → All IsDeed xs → All IsDeed ys → HasLived xs a b → HasLived ys c d
        → AreAlike p a c → given p a xs ≡ given p c ys
        → AreAlike p b d }
{}

/// What the device does for a message is 75 events at most: one of its own, and 74 writes of the physical function's registers, by which the
/// host answers the driver's mailbox or forgets what it asked for.
pub fn heard_by_bounded_work()
    ensures world { (p : ℕ) (c : CardState) (message : List ℕ) (files : ℕ) →
        world_of (told c p message files).card ≡ world_after (world_of c) (events_heard c p message files) }
    ensures most { (p : ℕ) (c : CardState) (message : List ℕ) (files : ℕ) → IsCard c
        → length (events_heard c p message files) ≤ 75 }
{}
