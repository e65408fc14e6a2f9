//! What a driver sees of the interrupt registers, worked out by hand from what the datasheet says of each register; and sets
//! of messages as words and as text.
use crate::compare::{assert_equal, assert_equal_at};
use irq_causes::{Causes, Messages, Vectors};
use std::test::Fail;
use wire_frame::PoolId;

// Vector 1 is enabled and vector 0 is not when both causes are set; then vector 0 is cleared automatically.
#[test]
fn messages_follow_the_mask(rt: HostRuntime) {
    let mut causes = Causes::new();
    assert_equal_at(&rt, causes.ims(0b010).bits(), 0b000, "nothing stands");
    assert_equal_at(
        &rt,
        causes.ics(0b011).bits(),
        0b010,
        "vector 0 is not enabled",
    );
    assert_equal_at(&rt, causes.read_icr().bits(), 0b011, "both stand");
    assert_equal_at(
        &rt,
        causes.ics(0b001).bits(),
        0b000,
        "vector 0 is still not enabled",
    );
    causes.iac(0b001);
    assert_equal_at(
        &rt,
        causes.ims(0b001).bits(),
        0b001,
        "the cause was waiting",
    );
    assert_equal_at(
        &rt,
        causes.read_icr().bits(),
        0b000,
        "it was cleared automatically",
    );
    assert_equal_at(
        &rt,
        causes.ims(0b001).bits(),
        0b000,
        "vector 0 is enabled already",
    );
    causes.imc(0b010);
    assert_equal(&rt, causes.mask().bits(), 0b001);
    assert_equal_at(
        &rt,
        causes.ics(0b111).bits(),
        0b001,
        "the others are not enabled",
    );
    assert_equal_at(
        &rt,
        causes.read_icr().bits(),
        0b110,
        "vector 0 was cleared automatically",
    );
}

// A write that a driver makes, or that stands for a cause.
#[derive(Clone, Copy)]
enum Write {
    // VTEICS.
    Raise,
    // VTEIMS.
    Enable,
}

// What a driver sees that clears and masks its vectors automatically, as Linux's ixgbevf does: it takes a message, polls, and
// enables the vector again. Vector 2 is in neither register.
#[test]
fn one_message_until_the_vector_is_enabled_again(rt: HostRuntime) {
    let mut causes = Causes::new();
    causes.iac(0b011);
    causes.iam(0b011);
    assert_equal(&rt, causes.auto_mask().bits(), 0b011);
    for (write, word, messages, mask, what) in [
        (Write::Enable, 0b111, 0b000, 0b111, "nothing stands"),
        (Write::Raise, 0b001, 0b001, 0b110, "the first cause"),
        (Write::Raise, 0b001, 0b000, 0b110, "one while it polls"),
        (Write::Raise, 0b001, 0b000, 0b110, "and one more"),
        (Write::Enable, 0b001, 0b001, 0b110, "the one that stood"),
        (Write::Enable, 0b001, 0b000, 0b111, "none came since"),
        (Write::Raise, 0b111, 0b111, 0b100, "three at once"),
        (Write::Raise, 0b100, 0b000, 0b100, "vector 2 stands"),
        (Write::Enable, 0b100, 0b000, 0b100, "and is enabled"),
        (
            Write::Enable,
            0b011,
            0b000,
            0b111,
            "the others were cleared",
        ),
    ] {
        let issued = match write {
            Write::Raise => causes.ics(word),
            Write::Enable => causes.ims(word),
        };
        assert_equal_at(
            &rt,
            (issued.bits(), causes.mask().bits()),
            (messages, mask),
            what,
        );
    }
    assert_equal(&rt, causes.read_icr().bits(), 0b100);
}

// The bits of a register above its three vectors are reserved.
#[test]
fn reserved_bits_are_ignored(rt: HostRuntime) {
    let mut causes = Causes::new();
    assert_equal(&rt, causes.ims(0xFFFF_FFF8).bits(), 0);
    assert_equal(&rt, causes.mask().bits(), 0);
    assert_equal(&rt, causes.ics(0xFFFF_FFF8).bits(), 0);
    assert_equal(&rt, causes.read_icr().bits(), 0);
    causes.iac(0xFFFF_FFFF);
    causes.iam(0xFFFF_FFFF);
    assert_equal(&rt, causes.auto_clear().bits(), 0b111);
    assert_equal(&rt, causes.auto_mask().bits(), 0b111);
}

// Bit 7 of an entry says that it names a vector, and bits 1:0 say which; a function has no vector 3.
#[test]
fn entries_raise_their_vector(rt: HostRuntime) {
    for (entry, messages) in [
        (0x00, 0),
        (0x80, 0b001),
        (0x81, 0b010),
        (0x82, 0b100),
        (0x83, 0),
        (0x02, 0),
    ] {
        let mut causes = Causes::new();
        assert_equal(&rt, causes.ims(0b111).bits(), 0);
        assert_equal_at(&rt, causes.raise_by(entry).bits(), messages, entry);
        assert_equal_at(&rt, causes.read_icr().bits(), messages, entry);
    }
}

// Pool 0 gets vector 0, pool 5 all three, and pool 63, the highest, vectors 1 and 2.
#[test]
fn each_vector_has_its_pools(rt: HostRuntime) -> Result<(), Fail> {
    let mut messages = Messages::none();
    for (number, bits) in [(0, 0b001), (5, 0b111), (63, 0b110)] {
        messages.set(
            PoolId::new(number).ok_or("a pool")?,
            Vectors::from_bits(bits),
        );
    }
    assert_equal(&rt, messages.pools().bits(), 0x8000_0000_0000_0021);
    for (v, pools) in [
        (0, 0x0000_0000_0000_0021),
        (1, 0x8000_0000_0000_0020),
        (2, 0x8000_0000_0000_0020),
        (3, 0),
        (255, 0),
    ] {
        assert_equal_at(&rt, messages.pools_with(v).bits(), pools, v);
    }
    let words = [0x21, 0x8000_0000_0000_0020, 0x8000_0000_0000_0020];
    assert_equal(&rt, messages.words().as_slice(), words.as_slice());
    assert_equal(&rt, Messages::from_words(words), messages);
    let mut masks = [0; 64];
    masks[0] = 0b001;
    masks[5] = 0b111;
    masks[63] = 0b110;
    assert_equal(&rt, messages.to_masks().as_slice(), masks.as_slice());
    Ok(())
}

// A pool that has got nothing is given vectors 0 and 2, and no other pool gets any.
#[test]
#[tactic(auto, unfolding(irq_causes::specs::Messages::no_messages))]
fn vectors_are_given(rt: HostRuntime) -> Result<(), Fail> {
    let pool = PoolId::new(7).ok_or("a pool")?;
    let mut messages = Messages::none();
    messages.give(pool, Vectors::from_bits(0b101));
    assert_equal(&rt, messages.words().as_slice(), [0x80, 0, 0x80].as_slice());
    Ok(())
}

#[test]
fn texts_for_people(rt: HostRuntime) -> Result<(), Fail> {
    let set = Vectors::from_bits(5);
    let messages = Messages::from_words([1, 2, 3]);
    let causes = Causes::new();
    assert_equal(
        &rt,
        format!(in rt.alloc(); "{set:?}")?.as_str(),
        "Vectors { bits: 5 }",
    );
    assert_equal(
        &rt,
        format!(in rt.alloc(); "{messages:?}")?.as_str(),
        "Messages { vector_0: 1, vector_1: 2, vector_2: 3 }",
    );
    assert_equal(
        &rt,
        format!(in rt.alloc(); "{causes:?}")?.as_str(),
        "Causes { causes: Vectors { bits: 0 }, enabled: Vectors { bits: 0 }, auto_clear: Vectors { bits: 0 }, auto_mask: Vectors { bits: 0 } }",
    );
    Ok(())
}
