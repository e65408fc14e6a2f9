//! Scripts by chance.
use crate::chance::Chance;
use crate::clusters::{BEGINNING, BLOCKS, CLUSTERS, PF_REGISTERS, WORDS};
use crate::registers::offset_of;
use std::alloc::{AllocError, Global};
use std::test::Fail;

/// How many virtual functions a script has.
pub const FUNCTIONS: u32 = 4;

/// How many event lines a script has.
pub const EVENTS: u32 = 300;

// Bits of the second word of a transmit descriptor.
const EOP: u64 = 1 << 24;

const RS: u64 = 1 << 27;

const DEXT: u64 = 1 << 29;

const VLE: u64 = 1 << 30;

const TSE: u64 = 1 << 31;

const DATA: u64 = 3 << 20;

const CONTEXT: u64 = 2 << 20;

// The second words of transmit descriptors that send a frame, without their lengths.
static COMMANDS: [u64; 5] = [
    EOP | RS,
    EOP | RS | VLE | (1 << 48),
    DEXT | DATA | EOP | RS,
    DEXT | DATA | EOP | RS,
    DEXT | DATA | EOP,
];

// Those of others: parts of a frame, other tags, context, and what faults.
static OTHER_COMMANDS: [u64; 16] = [
    0,
    RS,
    RS,
    VLE | (2 << 48),
    EOP | TSE,
    EOP | RS | VLE | (0xa021 << 48),
    DEXT | DATA,
    DEXT | DATA | RS,
    DEXT | DATA | RS,
    DEXT | CONTEXT,
    DEXT | CONTEXT | RS,
    DEXT | CONTEXT | EOP | RS | TSE,
    DEXT | EOP | RS,
    DEXT | DATA | EOP | RS | TSE,
    DEXT | DATA | EOP | VLE | (1 << 48),
    (0xffff << 48) | DEXT | DATA | EOP | RS | (1 << 32),
];

// Other places and lengths than those of the frame. The memory of a function ends at 0x8000.
static OTHER_SOURCES: [u64; 6] = [0, 0x5ff0, 0x6010, 0x7ff8, 0x8000, u64::MAX];

static OTHER_LENGTHS: [u64; 8] = [0, 13, 14, 20, 60, 1518, 1519, 0xffff];

// Where receive buffers are, and where else.
static BUFFERS: [u64; 8] = [
    0x3000, 0x3400, 0x3800, 0x3c00, 0x4000, 0x4400, 0x4800, 0x4c00,
];

static OTHER_BUFFERS: [u64; 5] = [0x1000, 0x6000, 0x7ff0, 0x8000, u64::MAX];

// The tags of frames, of which most have none.
static TAGS: [&str; 10] = [
    "", "", "", "", "", "81000001", "81000001", "8100a021", "81000fff", "81000000",
];

// How long frames are.
static FRAMES: [u64; 16] = [
    60, 60, 60, 60, 60, 60, 60, 60, 60, 60, 64, 18, 100, 1024, 1500, 1518,
];

// How far the functions of a cluster are from the busy one, and from one another but for one.
static DISTANCES: [u64; 8] = [0, 0, 0, 1, 1, 2, 2, 3];

// Numbers of 32 bits that are more than a number by chance.
static NUMBERS: [u64; 8] = [
    0,
    1,
    0xf,
    0xffff_ffff,
    0x8000_0000,
    0x0200_0000,
    0x0400_0000,
    0x0200_0002,
];

// A script that grows.
#[derive(Drop)]
struct Seeded {
    text: String,
    chance: Chance,
    events: u32,
    // the function that clusters are about most often
    busy: u64,
    // what the cluster is about
    pool: u64,
    other: u64,
    queue: u64,
    // the length of the frame that was drawn last
    length: u64,
}

/// The script of a seed. Each line but the first is an event's.
pub fn script(alloc: Global, seed: u64) -> Result<String, Fail> {
    let mut script = Seeded {
        text: String::new(alloc),
        chance: Chance::new(seed),
        events: 0,
        busy: seed % 4,
        pool: seed % 4,
        other: (seed % 4 + 1) % 4,
        queue: 0,
        length: 60,
    };
    writeln!(script.text, "vfs {FUNCTIONS} 32768")?;
    script.cluster(BEGINNING)?;
    for _ in 0..EVENTS {
        script.draw_cluster()?;
    }
    Ok(script.text)
}

// The text of a row.
fn row(rows: &[(&'static str, &'static str)], name: &str) -> Result<&'static str, Fail> {
    for (of, text) in rows {
        if *of == name {
            return Ok(*text);
        }
    }
    Err(Fail::from("no such row"))
}

// The offset of a register by its name, or a number in hexadecimal digits.
fn number_of(word: &str) -> Result<u64, Fail> {
    if let Some(offset) = offset_of(word) {
        return Ok(u64::from(offset));
    }
    let digits = word.strip_prefix("0x").ok_or("a base without 0x")?;
    Ok(u64::from_str_radix(digits, 16)?)
}

// One of the clusters, by their weights.
fn drawn_cluster(chance: &mut Chance) -> &'static str {
    let mut weights = 0u64;
    for (weight, _) in &CLUSTERS {
        weights = weights.wrapping_add(*weight);
    }
    let mut place = chance.next() % weights.max(1);
    for (weight, cluster) in &CLUSTERS {
        match place.checked_sub(*weight) {
            Some(rest) => place = rest,
            None => return *cluster,
        }
    }
    BEGINNING
}

impl Seeded {
    // Adds the lines of a cluster that is drawn, about what is drawn.
    fn draw_cluster(&mut self) -> Result<(), Fail> {
        self.pool = (self.busy % 4 + self.chance.one_of(&DISTANCES) % 4) % 4;
        self.other = (self.pool + 1 + self.chance.one_of(&DISTANCES) % 3) % 4;
        self.queue = self.chance.next() % 2;
        let cluster = drawn_cluster(&mut self.chance);
        self.cluster(cluster)
    }

    // Adds the lines of a cluster.
    fn cluster(&mut self, cluster: &str) -> Result<(), Fail> {
        for block in cluster.split(' ') {
            match block {
                "swap" => (self.pool, self.other) = (self.other, self.pool),
                "next" => (self.pool, self.other) = (self.other, (self.other % 4 + 1) % 4),
                _ => self.block(row(&BLOCKS, block)?)?,
            }
        }
        Ok(())
    }

    // Adds the lines of a block, unless the script has all of its events.
    fn block(&mut self, lines: &str) -> Result<(), Fail> {
        for line in lines.lines() {
            if self.events < EVENTS {
                self.event(line)?;
            }
        }
        Ok(())
    }

    // Adds an event's line.
    fn event(&mut self, line: &str) -> Result<(), Fail> {
        self.events = self.events.wrapping_add(1);
        for (place, word) in line.split(' ').enumerate() {
            if place > 0 {
                self.text.push(' ')?;
            }
            self.word(word)?;
        }
        self.text.push('\n')?;
        Ok(())
    }

    // Adds what a word stands for.
    fn word(&mut self, word: &str) -> Result<(), Fail> {
        match word.strip_prefix('$') {
            Some(name) => self.drawn(name),
            None => self.plain(word),
        }
    }

    // Adds a word for which nothing is drawn: the number that its terms add up to, the offset of a register, or itself.
    fn plain(&mut self, word: &str) -> Result<(), Fail> {
        if let Some((base, term)) = word.split_once('+') {
            let number = number_of(base)?.wrapping_add(self.product(term)?);
            write!(self.text, "0x{number:x}")?;
        } else if let Some(offset) = offset_of(word) {
            write!(self.text, "0x{offset:x}")?;
        } else {
            self.text.push_str(word)?;
        }
        Ok(())
    }

    // A number, alone or times P or Q.
    fn product(&self, term: &str) -> Result<u64, Fail> {
        let (factor, times) = if let Some(factor) = term.strip_suffix('p') {
            (factor, self.pool)
        } else if let Some(factor) = term.strip_suffix('q') {
            (factor, self.queue)
        } else {
            (term, 1)
        };
        Ok(factor.parse::<u64>()?.wrapping_mul(times))
    }

    // Adds what is drawn for a name.
    fn drawn(&mut self, name: &str) -> Result<(), Fail> {
        match name {
            "p" => write!(self.text, "{}", self.pool)?,
            "q" => write!(self.text, "{}", self.queue)?,
            "bit" => write!(self.text, "{}", 1u64 << (self.pool % 4))?,
            "others" => write!(self.text, "{}", 15u64 ^ (1 << (self.pool % 4)))?,
            "sends" => self.transmit_descriptors()?,
            "buffers" => self.receive_descriptors()?,
            "word" => {
                let word = self.drawn_number();
                write!(self.text, "0x{word:x}")?;
            }
            "pf" => {
                let offset = self.pf_register();
                write!(self.text, "0x{offset:x}")?;
            }
            "frame" | "to_p" | "to_o" | "to_nobody" | "to_several" => self.frame(name)?,
            _ => self.one_word(name)?,
        }
        Ok(())
    }

    // Adds one of the words of a row.
    fn one_word(&mut self, name: &str) -> Result<(), Fail> {
        let words = row(&WORDS, name)?;
        let place = self.chance.place(words.split(' ').count());
        self.plain(words.split(' ').nth(place).ok_or("an empty row")?)
    }

    // Adds a frame to whom its name says.
    fn frame(&mut self, name: &str) -> Result<(), Fail> {
        match name {
            "to_p" => write!(self.text, "0200000000{:02x}", self.pool)?,
            "to_o" => write!(self.text, "0200000000{:02x}", self.other)?,
            "to_nobody" => self.one_word("nobody")?,
            "to_several" => self.one_word("several")?,
            _ => self.one_word("anyone")?,
        }
        // mostly P is the source
        if self.chance.below(4) == 0 {
            self.one_word("anyone")?;
        } else {
            write!(self.text, "0200000000{:02x}", self.pool)?;
        }
        self.after_addresses()?;
        Ok(())
    }

    // Adds what follows the addresses of a frame.
    fn after_addresses(&mut self) -> Result<(), AllocError> {
        let place = self.chance.place(TAGS.len());
        let tag = TAGS.get(place).unwrap_or(&"");
        let head = if tag.is_empty() { 14 } else { 18 };
        let rest = self.chance.one_of(&FRAMES).saturating_sub(head);
        write!(self.text, "{tag}0800")?;
        if rest > 0 {
            let fill = self.chance.below(256);
            write!(self.text, ".{fill:02x}*{rest}")?;
        }
        self.length = rest.wrapping_add(head);
        Ok(())
    }

    // Adds eight transmit descriptors.
    fn transmit_descriptors(&mut self) -> Result<(), AllocError> {
        for place in 0..8 {
            let address = self.mostly(&[0x6000], &OTHER_SOURCES, 24);
            let command = self.mostly(&COMMANDS, &OTHER_COMMANDS, 4);
            let length = self.mostly(&[self.length], &OTHER_LENGTHS, 8);
            self.descriptor(place, address, command | length)?;
        }
        Ok(())
    }

    // Adds eight receive descriptors.
    fn receive_descriptors(&mut self) -> Result<(), AllocError> {
        for place in 0..8 {
            let address = self.mostly(&BUFFERS, &OTHER_BUFFERS, 24);
            let second = self.chance.next();
            self.descriptor(place, address, second)?;
        }
        Ok(())
    }

    // One of these numbers, and of the others once in so many times.
    fn mostly(&mut self, these: &[u64], others: &[u64], times: u64) -> u64 {
        if self.chance.next() % times.max(1) == 0 {
            self.chance.one_of(others)
        } else {
            self.chance.one_of(these)
        }
    }

    // Adds a descriptor after so many others.
    fn descriptor(&mut self, place: u32, first: u64, second: u64) -> Result<(), AllocError> {
        if place > 0 {
            self.text.push('.')?;
        }
        let (first, second) = (first.swap_bytes(), second.swap_bytes());
        write!(self.text, "{first:016x}{second:016x}")
    }

    // A number of 32 bits.
    fn drawn_number(&mut self) -> u64 {
        match self.chance.below(4) {
            0 => self.chance.next() % (1 << 32),
            1 => 1u64 << self.chance.below(32),
            _ => self.chance.one_of(&NUMBERS),
        }
    }

    // The offset of a register of the physical function, or of none.
    fn pf_register(&mut self) -> u64 {
        let place = self.chance.place(PF_REGISTERS.len());
        let (first, step, count) = *PF_REGISTERS.get(place).unwrap_or(&(0, 4, 1));
        u64::from(first).wrapping_add((self.chance.next() % u64::max(count, 1)).wrapping_mul(step))
    }
}
