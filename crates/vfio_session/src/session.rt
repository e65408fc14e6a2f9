//! A session, and what a message makes of it.
ghost use Rattle.std.specs.Prelude.{◌≡◌, ◌≤◌, ◌<◌, ◌+◌, ℕ, true, false, ◌^◌, replicate, length, slice_index_or, IfSome};
ghost use Rattle.vfio_user.specs.Requests.{IsWhole};
ghost use Rattle.vfio_user.specs.Requests.{of_lent};
ghost use Rattle.vfio_user.specs.Replies.{HasItsBytes};
ghost use Rattle.vfio_user.specs.declared.reply.Reply.TheVariants.{Bytes, Failed};
ghost use Rattle.pci_function.specs.Space.{bytes_at};
ghost use Rattle.vfio_session.specs.declared.decision.Decision.TheVariants.{Answered, Asks, Ends};
ghost use Rattle.vfio_user.specs.Replies.{of_lent as reply_lent};
ghost use Rattle.vfio_session.specs.Decisions.{Says, count_of, ask_of, owed_of, fate_of, breach_of};
ghost use Rattle.vfio_session.specs.Sessions.{fresh, offering, answered, refused, asked, reply_to};
ghost use Rattle.vfio_session.specs.Regions.{read, read_register, write, write_register, write_configuration};
ghost use Rattle.vfio_session.specs.Vectors.{set, turned_off, given_files, armed_after};
ghost use Rattle.vfio_session.specs.Memory.{map, mapped, unmap};
ghost use Rattle.vfio_session.specs.Inside.{AreInside};
ghost use Rattle.vfio_session.specs.Received.{region_told, irq_told, may_have_files, acted, taken, begun, received};

use crate::decision::{Ask, Breach, Decision, VectorRange};
use crate::memory::{can_be, is_span};
use crate::offered::{
    CONFIGURATION, IRQS, MAJOR, MINOR, MSIX, REGIONS, REGISTERS, TABLE, irq_count, region_area,
    region_size,
};
use crate::owed::{Form, Owed, lay};
use crate::regions::{is_inside, is_register};
use crate::vectors::{ALL, are_there, armed_after, armed_in};
use byteorder::{ByteOrder, LittleEndian};
use pci_function::{Effect, PciFunction};
use std::marker::Model;
use vfio_user::{
    Action, Carried, Errno, HEADER, Header, Irqs, MOST, Mapping, Range, Region, RegionQuery, Reply,
    Request,
};

/// How many bytes a reply has at most, and so the room for one.
pub const ROOM: usize = MOST as usize;

/// One function's end of a connection.
#[derive(Drop)]
pub struct Session {
    has_version: bool,
    space: PciFunction,
    armed: [bool; 3],
    offers_area: bool,
}

impl Model for Session {
    ghost use Rattle.vfio_session.specs.Sessions.{SessionState};

    ghost Value = { SessionState };

    ghost view = { λ s. record { has_version = s.has_version; space = s.space; armed = s.armed; offers_area = s.offers_area } };
}

impl Session {
    /// A session in which nothing was said.
    pub fn new() -> Session
        ensures { result ≡ fresh }
    {
        Session {
            has_version: false,
            space: PciFunction::new(),
            armed: [false; 3],
            offers_area: false,
        }
    }

    /// Offers the client to map the page of BAR 0 with the registers of the transmit queues, offsets 0x2000 to 0x2FFF: from now on the reply
    /// to DEVICE_GET_REGION_INFO of BAR 0 names it as the one area that may be mapped, and a file of the region goes beside that reply. Nothing
    /// else changes. It stays so until the connection ends, also where the function is reset.
    pub fn offer_area(&mut self)
        ensures { self.new ≡ offering self.old }
    {
        self.offers_area = true;
    }

    /// Whether that page is offered.
    pub fn offers_area(&self) -> bool
        ensures { result ≡ self.now.offers_area }
    {
        self.offers_area
    }

    /// Takes a whole message, header and body, with the number of files that came beside it, and decides what is done.
    ///
    /// A reply stands in the front of the room, and the rest of the room stays as it was; without a reply all of it does. A message that
    /// can't be read, or that asks for what isn't there, is refused by an errno, and the session goes on; [`Breach`] lists what ends it.
    pub fn receive(&mut self, message: &[u8], files: usize, room: &mut [u8; ROOM]) -> Decision
        ensures session { self.new ≡ (received self.old message.now files).session }
        ensures reply { Says (count_of result) room.old room.new (received self.old message.now files).reply }
        ensures most { IfSome (count_of result) (λ count. count ≤ 4128) }
        ensures asks { ask_of result ≡ (received self.old message.now files).asks }
        ensures owed { owed_of result ≡ (received self.old message.now files).owed }
        ensures files { fate_of result ≡ (received self.old message.now files).files }
        ensures ends { breach_of result ≡ (received self.old message.now files).ends }
        ensures inside { AreInside (ask_of result) files }
    {
        self.decide(message, files, room)
    }

    /// Whether a version was agreed on.
    pub fn has_version(&self) -> bool
        ensures { result ≡ self.now.has_version }
    {
        self.has_version
    }

    /// The configuration space.
    pub fn space(&self) -> &PciFunction
        ensures { result.now ≡ self.now.space }
    {
        &self.space
    }

    /// Whether a vector of MSI-X has a file. There are vectors 0 to 2.
    pub fn is_armed(&self, vector: u32) -> bool
        ensures { result ≡ slice_index_or self.now.armed vector false }
    {
        armed_in(&self.armed, vector)
    }

    // The same, by the definition alone.
    #[tactic(auto, unfolding(crate::specs::Received::received))]
    fn decide(&mut self, message: &[u8], files: usize, room: &mut [u8; ROOM]) -> Decision
        ensures session { self.new ≡ (received self.old message.now files).session }
        ensures reply { Says (count_of result) room.old room.new (received self.old message.now files).reply }
        ensures most { IfSome (count_of result) (λ count. count ≤ 4128) }
        ensures asks { ask_of result ≡ (received self.old message.now files).asks }
        ensures owed { owed_of result ≡ (received self.old message.now files).owed }
        ensures files { fate_of result ≡ (received self.old message.now files).files }
        ensures ends { breach_of result ≡ (received self.old message.now files).ends }
    {
        let header = match Header::decode(message) {
            Ok(header) => header,
            Err(broken) => return self.end(Breach::NoHeader(broken)),
        };
        if header.size as usize != message.len() {
            return self.end(Breach::WrongSize);
        }
        match Request::decode(header.command, &message[HEADER..]) {
            Ok(request) => {
                if self.has_version {
                    self.take(&header, request, files, room)
                } else {
                    self.begin(&header, request, files, room)
                }
            }
            Err(errno) => {
                if self.has_version {
                    refuse(&header, errno, room)
                } else {
                    self.end(Breach::NoVersion)
                }
            }
        }
    }

    // The connection ends.
    fn end(&mut self, breach: Breach) -> Decision
        ensures session { self.new ≡ fresh }
        ensures decision { result ≡ Ends breach }
    {
        *self = Session::new();
        Decision::Ends(breach)
    }

    // The first request.
    #[tactic(auto, unfolding(crate::specs::Received::begun))]
    fn begin(
        &mut self,
        header: &Header,
        request: Request<&[u8]>,
        files: usize,
        room: &mut [u8; ROOM],
    ) -> Decision
        ensures session { self.new ≡ (begun self.old header.now (of_lent request.entry) files).session }
        ensures reply { Says (count_of result) room.old room.new (begun self.old header.now (of_lent request.entry) files).reply }
        ensures most { IfSome (count_of result) (λ count. count ≤ 4128) }
        ensures asks { ask_of result ≡ (begun self.old header.now (of_lent request.entry) files).asks }
        ensures owed { owed_of result ≡ (begun self.old header.now (of_lent request.entry) files).owed }
        ensures files { fate_of result ≡ (begun self.old header.now (of_lent request.entry) files).files }
        ensures ends { breach_of result ≡ (begun self.old header.now (of_lent request.entry) files).ends }
    {
        match request {
            Request::Version(major, _) => {
                if major != MAJOR {
                    return self.end(Breach::OtherVersion);
                }
                if files != 0 {
                    return self.end(Breach::StrayFiles);
                }
                self.has_version = true;
                say(header, Reply::Version(MAJOR, MINOR), room)
            }
            _ => self.end(Breach::NoVersion),
        }
    }

    // A later one, which may have files that nobody wants.
    fn take(
        &mut self,
        header: &Header,
        request: Request<&[u8]>,
        files: usize,
        room: &mut [u8; ROOM],
    ) -> Decision
        requires { IsWhole (of_lent request) }
        ensures session { self.new ≡ (taken self.old header.now (of_lent request.entry) files).session }
        ensures reply { Says (count_of result) room.old room.new (taken self.old header.now (of_lent request.entry) files).reply }
        ensures most { IfSome (count_of result) (λ count. count ≤ 4128) }
        ensures asks { ask_of result ≡ (taken self.old header.now (of_lent request.entry) files).asks }
        ensures owed { owed_of result ≡ (taken self.old header.now (of_lent request.entry) files).owed }
        ensures files { fate_of result ≡ (taken self.old header.now (of_lent request.entry) files).files }
        ensures ends { breach_of result ≡ (taken self.old header.now (of_lent request.entry) files).ends }
    {
        if files == 0 || may_have_files(&request) {
            self.act(header, request, files, room)
        } else {
            refuse(header, Errno::Invalid, room)
        }
    }

    // A later one, by its command.
    #[tactic(auto, unfolding(crate::specs::Received::acted))]
    fn act(
        &mut self,
        header: &Header,
        request: Request<&[u8]>,
        files: usize,
        room: &mut [u8; ROOM],
    ) -> Decision
        requires { IsWhole (of_lent request) }
        ensures session { self.new ≡ (acted self.old header.now (of_lent request.entry) files).session }
        ensures reply { Says (count_of result) room.old room.new (acted self.old header.now (of_lent request.entry) files).reply }
        ensures most { IfSome (count_of result) (λ count. count ≤ 4128) }
        ensures asks { ask_of result ≡ (acted self.old header.now (of_lent request.entry) files).asks }
        ensures owed { owed_of result ≡ (acted self.old header.now (of_lent request.entry) files).owed }
        ensures files { fate_of result ≡ (acted self.old header.now (of_lent request.entry) files).files }
        ensures ends { breach_of result ≡ (acted self.old header.now (of_lent request.entry) files).ends }
    {
        match request {
            Request::Version(_, _) => self.end(Breach::SecondVersion),
            Request::Map(mapping) => self.map(header, mapping, files, room),
            Request::Unmap(range) => self.unmap(header, range, room),
            Request::Info => say(header, Reply::Info(REGIONS, IRQS), room),
            Request::RegionInfo(query) => self.tell_region(header, query, room),
            Request::IrqInfo(index) => self.tell_irqs(header, index, room),
            Request::SetIrqs(irqs) => self.set(header, irqs, files, room),
            Request::Read(region) => self.read(header, region, room),
            Request::Write(region, bytes) => self.write(header, region, bytes, room),
            Request::Reset => {
                self.space.reset();
                ask(header, Form::Plain, Ask::Reset)
            }
        }
    }

    // What a region has.
    fn tell_region(&self, header: &Header, query: RegionQuery, room: &mut [u8; ROOM]) -> Decision
        ensures session { (region_told self.now header.now query).session ≡ self.now }
        ensures reply { Says (count_of result) room.old room.new (region_told self.now header.now query).reply }
        ensures most { IfSome (count_of result) (λ count. count ≤ 4128) }
        ensures asks { ask_of result ≡ (region_told self.now header.now query).asks }
        ensures owed { owed_of result ≡ (region_told self.now header.now query).owed }
        ensures files { fate_of result ≡ (region_told self.now header.now query).files }
        ensures ends { breach_of result ≡ (region_told self.now header.now query).ends }
    {
        if query.index < REGIONS {
            let size = region_size(query.index);
            let area = region_area(self.offers_area, query.index);
            say(header, Reply::RegionInfo(query, size, area), room)
        } else {
            refuse(header, Errno::Invalid, room)
        }
    }

    // What interrupts of a type there are.
    fn tell_irqs(&self, header: &Header, index: u32, room: &mut [u8; ROOM]) -> Decision
        ensures session { (irq_told self.now header.now index).session ≡ self.now }
        ensures reply { Says (count_of result) room.old room.new (irq_told self.now header.now index).reply }
        ensures most { IfSome (count_of result) (λ count. count ≤ 4128) }
        ensures asks { ask_of result ≡ (irq_told self.now header.now index).asks }
        ensures owed { owed_of result ≡ (irq_told self.now header.now index).owed }
        ensures files { fate_of result ≡ (irq_told self.now header.now index).files }
        ensures ends { breach_of result ≡ (irq_told self.now header.now index).ends }
    {
        if index < IRQS {
            say(header, Reply::IrqInfo(index, irq_count(index)), room)
        } else {
            refuse(header, Errno::Invalid, room)
        }
    }

    // Guest addresses get memory.
    #[tactic(auto, unfolding(crate::specs::Memory::map))]
    fn map(
        &self,
        header: &Header,
        mapping: Mapping,
        files: usize,
        room: &mut [u8; ROOM],
    ) -> Decision
        ensures session { (map self.now header.now mapping files).session ≡ self.now }
        ensures reply { Says (count_of result) room.old room.new (map self.now header.now mapping files).reply }
        ensures most { IfSome (count_of result) (λ count. count ≤ 4128) }
        ensures asks { ask_of result ≡ (map self.now header.now mapping files).asks }
        ensures owed { owed_of result ≡ (map self.now header.now mapping files).owed }
        ensures files { fate_of result ≡ (map self.now header.now mapping files).files }
        ensures ends { breach_of result ≡ (map self.now header.now mapping files).ends }
    {
        if !can_be(&mapping) {
            return refuse(header, Errno::Invalid, room);
        }
        if files == 1 {
            return ask(header, Form::Plain, Ask::Map(mapping));
        }
        if files == 0 && !mapping.needs_file {
            return say(header, Reply::Done, room);
        }
        refuse(header, Errno::Invalid, room)
    }

    // Guest addresses lose their memory.
    #[tactic(auto, unfolding(crate::specs::Memory::unmap))]
    fn unmap(&self, header: &Header, range: Range, room: &mut [u8; ROOM]) -> Decision
        ensures session { (unmap self.now header.now range).session ≡ self.now }
        ensures reply { Says (count_of result) room.old room.new (unmap self.now header.now range).reply }
        ensures most { IfSome (count_of result) (λ count. count ≤ 4128) }
        ensures asks { ask_of result ≡ (unmap self.now header.now range).asks }
        ensures owed { owed_of result ≡ (unmap self.now header.now range).owed }
        ensures files { fate_of result ≡ (unmap self.now header.now range).files }
        ensures ends { breach_of result ≡ (unmap self.now header.now range).ends }
    {
        if is_span(range.address, range.size) {
            ask(header, Form::Unmapped(range), Ask::Unmap(range))
        } else {
            refuse(header, Errno::Invalid, room)
        }
    }

    // Vectors get files, or lose them.
    #[tactic(auto, unfolding(crate::specs::Vectors::set))]
    fn set(&mut self, header: &Header, irqs: Irqs, files: usize, room: &mut [u8; ROOM]) -> Decision
        ensures session { self.new ≡ (set self.old header.now irqs files).session }
        ensures reply { Says (count_of result) room.old room.new (set self.old header.now irqs files).reply }
        ensures most { IfSome (count_of result) (λ count. count ≤ 4128) }
        ensures asks { ask_of result ≡ (set self.old header.now irqs files).asks }
        ensures owed { owed_of result ≡ (set self.old header.now irqs files).owed }
        ensures files { fate_of result ≡ (set self.old header.now irqs files).files }
        ensures ends { breach_of result ≡ (set self.old header.now irqs files).ends }
    {
        if irqs.index != MSIX {
            return refuse(header, Errno::Invalid, room);
        }
        match irqs.action {
            Action::Mask | Action::Unmask => refuse(header, Errno::NotSupported, room),
            Action::Trigger => match irqs.carried {
                Carried::Nothing => self.turn_off(header, irqs, room),
                Carried::Eventfds => {
                    let vectors = VectorRange {
                        first: irqs.start,
                        count: irqs.count,
                    };
                    self.give_files(header, vectors, files, room)
                }
            },
        }
    }

    // All vectors lose their files.
    fn turn_off(&mut self, header: &Header, irqs: Irqs, room: &mut [u8; ROOM]) -> Decision
        ensures session { self.new ≡ (turned_off self.old header.now irqs).session }
        ensures reply { Says (count_of result) room.old room.new (turned_off self.old header.now irqs).reply }
        ensures most { IfSome (count_of result) (λ count. count ≤ 4128) }
        ensures asks { ask_of result ≡ (turned_off self.old header.now irqs).asks }
        ensures owed { owed_of result ≡ (turned_off self.old header.now irqs).owed }
        ensures files { fate_of result ≡ (turned_off self.old header.now irqs).files }
        ensures ends { breach_of result ≡ (turned_off self.old header.now irqs).ends }
    {
        if irqs.start == 0 && irqs.count == 0 {
            self.armed = armed_after(ALL, false, &self.armed);
            ask(header, Form::Plain, Ask::Disarm(ALL))
        } else {
            refuse(header, Errno::NotSupported, room)
        }
    }

    // These vectors get the files that came, or lose theirs where none came.
    fn give_files(
        &mut self,
        header: &Header,
        vectors: VectorRange,
        files: usize,
        room: &mut [u8; ROOM],
    ) -> Decision
        ensures session { self.new ≡ (given_files self.old header.now vectors files).session }
        ensures reply { Says (count_of result) room.old room.new (given_files self.old header.now vectors files).reply }
        ensures most { IfSome (count_of result) (λ count. count ≤ 4128) }
        ensures asks { ask_of result ≡ (given_files self.old header.now vectors files).asks }
        ensures owed { owed_of result ≡ (given_files self.old header.now vectors files).owed }
        ensures files { fate_of result ≡ (given_files self.old header.now vectors files).files }
        ensures ends { breach_of result ≡ (given_files self.old header.now vectors files).ends }
    {
        if !are_there(vectors) {
            return refuse(header, Errno::Invalid, room);
        }
        if files == 0 {
            self.armed = armed_after(vectors, false, &self.armed);
            return ask(header, Form::Plain, Ask::Disarm(vectors));
        }
        if files == vectors.count as usize {
            self.armed = armed_after(vectors, true, &self.armed);
            return ask(header, Form::Plain, Ask::Arm(vectors));
        }
        refuse(header, Errno::Invalid, room)
    }

    // Bytes of a region are read.
    #[tactic(auto, unfolding(crate::specs::Regions::read))]
    fn read(&self, header: &Header, region: Region, room: &mut [u8; ROOM]) -> Decision
        requires { region.count ≤ 4096 }
        ensures session { (read self.now header.now region).session ≡ self.now }
        ensures reply { Says (count_of result) room.old room.new (read self.now header.now region).reply }
        ensures most { IfSome (count_of result) (λ count. count ≤ 4128) }
        ensures asks { ask_of result ≡ (read self.now header.now region).asks }
        ensures owed { owed_of result ≡ (read self.now header.now region).owed }
        ensures files { fate_of result ≡ (read self.now header.now region).files }
        ensures ends { breach_of result ≡ (read self.now header.now region).ends }
    {
        if !is_inside(&region) {
            return refuse(header, Errno::Invalid, room);
        }
        match region.index {
            REGISTERS => self.read_register(header, region, room),
            CONFIGURATION => self.read_configuration(header, region, room),
            TABLE => say_zeros(header, region, room),
            _ => refuse(header, Errno::Invalid, room),
        }
    }

    // A register is read.
    fn read_register(&self, header: &Header, region: Region, room: &mut [u8; ROOM]) -> Decision
        requires { region.offset < 2 ^ 32 }
        ensures session { (read_register self.now header.now region).session ≡ self.now }
        ensures reply { Says (count_of result) room.old room.new (read_register self.now header.now region).reply }
        ensures most { IfSome (count_of result) (λ count. count ≤ 4128) }
        ensures asks { ask_of result ≡ (read_register self.now header.now region).asks }
        ensures owed { owed_of result ≡ (read_register self.now header.now region).owed }
        ensures files { fate_of result ≡ (read_register self.now header.now region).files }
        ensures ends { breach_of result ≡ (read_register self.now header.now region).ends }
    {
        if is_register(&region) {
            let offset = region.offset as u32;
            ask(header, Form::Register(offset), Ask::Read(offset))
        } else {
            refuse(header, Errno::Invalid, room)
        }
    }

    // Bytes of the configuration space are read.
    #[tactic(auto, unfolding(pci_function::specs::Space::bytes_at))]
    fn read_configuration(&self, header: &Header, region: Region, room: &mut [u8; ROOM]) -> Decision
        requires { region.count ≤ 4096 }
        ensures session { (answered self.now header.now (Bytes region (bytes_at self.now.space region.offset region.count))).session ≡ self.now }
        ensures reply { Says (count_of result) room.old room.new (answered self.now header.now (Bytes region (bytes_at self.now.space region.offset region.count))).reply }
        ensures most { IfSome (count_of result) (λ count. count ≤ 4128) }
        ensures asks { ask_of result ≡ (answered self.now header.now (Bytes region (bytes_at self.now.space region.offset region.count))).asks }
        ensures owed { owed_of result ≡ (answered self.now header.now (Bytes region (bytes_at self.now.space region.offset region.count))).owed }
        ensures files { fate_of result ≡ (answered self.now header.now (Bytes region (bytes_at self.now.space region.offset region.count))).files }
        ensures ends { breach_of result ≡ (answered self.now header.now (Bytes region (bytes_at self.now.space region.offset region.count))).ends }
    {
        let mut bytes = [0u8; 4096];
        let bytes = &mut bytes[..region.count as usize];
        self.space.read(region.offset, bytes);
        say(header, Reply::Bytes(region, bytes), room)
    }

    // Bytes are written to a region.
    #[tactic(auto, unfolding(crate::specs::Regions::write))]
    fn write(
        &mut self,
        header: &Header,
        region: Region,
        bytes: &[u8],
        room: &mut [u8; ROOM],
    ) -> Decision
        requires { length bytes.now ≡ region.count }
        ensures session { self.new ≡ (write self.old header.now region bytes.now).session }
        ensures reply { Says (count_of result) room.old room.new (write self.old header.now region bytes.now).reply }
        ensures most { IfSome (count_of result) (λ count. count ≤ 4128) }
        ensures asks { ask_of result ≡ (write self.old header.now region bytes.now).asks }
        ensures owed { owed_of result ≡ (write self.old header.now region bytes.now).owed }
        ensures files { fate_of result ≡ (write self.old header.now region bytes.now).files }
        ensures ends { breach_of result ≡ (write self.old header.now region bytes.now).ends }
    {
        if !is_inside(&region) {
            return refuse(header, Errno::Invalid, room);
        }
        match region.index {
            REGISTERS => self.write_register(header, region, bytes, room),
            CONFIGURATION => self.write_configuration(header, region, bytes, room),
            TABLE => say(header, Reply::Written(region), room),
            _ => refuse(header, Errno::Invalid, room),
        }
    }

    // A register is written.
    fn write_register(
        &self,
        header: &Header,
        region: Region,
        bytes: &[u8],
        room: &mut [u8; ROOM],
    ) -> Decision
        requires offset { region.offset < 2 ^ 32 }
        requires bytes { length bytes.now ≡ region.count }
        ensures session { (write_register self.now header.now region bytes.now).session ≡ self.now }
        ensures reply { Says (count_of result) room.old room.new (write_register self.now header.now region bytes.now).reply }
        ensures most { IfSome (count_of result) (λ count. count ≤ 4128) }
        ensures asks { ask_of result ≡ (write_register self.now header.now region bytes.now).asks }
        ensures owed { owed_of result ≡ (write_register self.now header.now region bytes.now).owed }
        ensures files { fate_of result ≡ (write_register self.now header.now region bytes.now).files }
        ensures ends { breach_of result ≡ (write_register self.now header.now region bytes.now).ends }
    {
        if is_register(&region) {
            let value = LittleEndian::read_u32(bytes);
            ask(
                header,
                Form::Stored(region),
                Ask::Write(region.offset as u32, value),
            )
        } else {
            refuse(header, Errno::Invalid, room)
        }
    }

    // The configuration space is written.
    fn write_configuration(
        &mut self,
        header: &Header,
        region: Region,
        bytes: &[u8],
        room: &mut [u8; ROOM],
    ) -> Decision
        ensures session { self.new ≡ (write_configuration self.old header.now region bytes.now).session }
        ensures reply { Says (count_of result) room.old room.new (write_configuration self.old header.now region bytes.now).reply }
        ensures most { IfSome (count_of result) (λ count. count ≤ 4128) }
        ensures asks { ask_of result ≡ (write_configuration self.old header.now region bytes.now).asks }
        ensures owed { owed_of result ≡ (write_configuration self.old header.now region bytes.now).owed }
        ensures files { fate_of result ≡ (write_configuration self.old header.now region bytes.now).files }
        ensures ends { breach_of result ≡ (write_configuration self.old header.now region bytes.now).ends }
    {
        match self.space.write(region.offset, bytes) {
            Effect::Nothing => say(header, Reply::Written(region), room),
            Effect::Reset => ask(header, Form::Stored(region), Ask::Reset),
        }
    }
}

// Whether files may come with a request.
#[tactic(auto, unfolding(crate::specs::Received::may_have_files))]
fn may_have_files(request: &Request<&[u8]>) -> bool
    ensures { result ≡ may_have_files (of_lent request.now) }
{
    match request {
        Request::Map(_) => true,
        Request::SetIrqs(irqs) => match irqs.carried {
            Carried::Nothing => false,
            Carried::Eventfds => true,
        },
        _ => false,
    }
}

// Zeros are read.
#[tactic(auto, using(crate::proofs::Zeros::first_zeros))]
fn say_zeros(header: &Header, region: Region, room: &mut [u8; ROOM]) -> Decision
    requires { region.count ≤ 4096 }
    ensures reply { Says (count_of result) room.old room.new (reply_to header.now (Bytes region (replicate {A = ℕ} region.count 0))) }
    ensures most { IfSome (count_of result) (λ count. count ≤ 4128) }
    ensures decision { result ≡ Answered (count_of result) }
{
    let zeros = [0u8; 4096];
    say(
        header,
        Reply::Bytes(region, &zeros[..region.count as usize]),
        room,
    )
}

// The session answers by itself.
fn say(header: &Header, reply: Reply<&[u8]>, room: &mut [u8; ROOM]) -> Decision
    requires { HasItsBytes (reply_lent reply) }
    ensures reply { Says (count_of result) room.old room.new (reply_to header.now (reply_lent reply.entry)) }
    ensures most { IfSome (count_of result) (λ count. count ≤ 4128) }
    ensures decision { result ≡ Answered (count_of result) }
{
    Decision::Answered(lay(header, reply, room))
}

// The request is refused.
fn refuse(header: &Header, errno: Errno, room: &mut [u8; ROOM]) -> Decision
    ensures reply { Says (count_of result) room.old room.new (reply_to header.now (Failed errno)) }
    ensures most { IfSome (count_of result) (λ count. count ≤ 4128) }
    ensures decision { result ≡ Answered (count_of result) }
{
    say(header, Reply::Failed(errno), room)
}

// Something is asked, and a reply is owed for it.
fn ask(header: &Header, form: Form, what: Ask) -> Decision
    ensures { result ≡ Asks what (record { header = header.now; form = form }) }
{
    Decision::Asks(
        what,
        Owed {
            header: *header,
            form,
        },
    )
}
