//! What scripts by chance are made of: blocks of lines, and clusters of blocks.
//!
//! A cluster is about two functions P and O and a transmit queue Q, drawn anew for each. In a line a word that begins with
//! `$` stands for what is drawn for it, and the name of a register for its offset; `BASE+Np` stands for the number or the
//! offset BASE plus N times P, `BASE+Nq` for that plus N times Q, and `BASE+N` for that plus N.
//!
//! | Word | What is drawn |
//! |---|---|
//! | `$p`, `$q` | P and Q |
//! | `$frame` | a frame, mostly from P, to a function, to nobody, to a group or to all |
//! | `$to_p`, `$to_o`, `$to_nobody`, `$to_several` | a frame to the address of P, of O, of nobody, of a group or of all |
//! | `$sends` | eight transmit descriptors, mostly of the frame that was drawn last |
//! | `$buffers` | eight receive descriptors |
//! | `$bit`, `$others` | the bit of P, the bits 3:0 without it |
//! | `$pf` | a register of the physical function |
//! | `$word` | a number of 32 bits |
//! | any other | one of the words of its row in [`WORDS`] |
use crate::registers::{
    MCSTCTRL, MPSAR, MTA, PF_VT_CTL, PFDTXGSWC, PFVFLRE0, PFVFLRE1, PFVFLREC, PFVFRE, PFVFSPOOF,
    PFVFTE, RAH, RAL, VFTA, VLNCTRL, VLVF, VLVFB, VMOLR, VMVIR,
};

/// The clusters, as the names of their blocks, each with its weight. By `swap` P and O change places; by `next` P becomes O,
/// and O the function after it.
pub static CLUSTERS: [(u64, &str); 27] = [
    // frames from the wire
    (
        6,
        "open address receive_ring interrupts wire_to_p wire look",
    ),
    (6, "wire wire wire_to_p look"),
    (4, "wire_to_several wire_to_several look"),
    (4, "open receive_ring wire_to_p wire_to_p look"),
    (2, "no_receiving look"),
    // default pools
    (3, "default_pool look"),
    (3, "open receive_ring interrupts default_is_p look"),
    (1, "no_default_pool"),
    // filters
    (2, "vlans wire_to_p wire wire"),
    (2, "accepts swap accepts wire wire_to_several look"),
    (2, "groups accepts wire_to_several wire_to_several look"),
    // frames from functions
    (5, "open to_anyone transmit_ring serve serve serve serve"),
    (
        5,
        "open loopback to_other transmit_ring serve serve swap look",
    ),
    (
        3,
        "open loopback to_several transmit_ring serve serve swap look",
    ),
    (
        4,
        "open address receive_ring interrupts swap open address interrupts all_permitted loopback to_other \
            transmit_ring serve serve serve swap look",
    ),
    (
        4,
        "open receive_ring listens next open receive_ring listens next open address all_permitted no_vlans \
            loopback wire_to_several to_several transmit_ring serve serve serve wire_to_several",
    ),
    (2, "open to_anyone transmit_ring no_sending"),
    (
        3,
        "open address checks to_anyone transmit_ring serve serve serve",
    ),
    (2, "open port_vlan to_other transmit_ring serve serve"),
    (2, "one_or_no_loopback serve"),
    // all settings are gone, and P is opened and used as if they were there; then it gets some
    (
        1,
        "reset open to_anyone transmit_ring serve serve address serve serve",
    ),
    (
        1,
        "reset open receive_ring interrupts default_is_p look all_permitted default_is_p look",
    ),
    // P gets the same one setting before a reset and after it
    (
        1,
        "reset open may_transmit reset open to_anyone transmit_ring may_transmit serve serve",
    ),
    // lives of functions, interrupts, and anything
    (4, "life"),
    (3, "open causes interrupts causes"),
    (6, "noise"),
    (4, "noisy_writes"),
];

/// The cluster that a script begins with: all four functions receive.
pub const BEGINNING: &str =
    "open address receive_ring interrupts next open address receive_ring interrupts next \
    open address receive_ring interrupts next open address receive_ring interrupts all_permitted";

/// The lines of the blocks.
pub static BLOCKS: [(&str, &str); 34] = [
    ("open", "open $p"),
    // P holds an address, and functions may receive and transmit.
    (
        "address",
        "pw RAL+8p 0x2\n\
            pw RAH+8p 0x80000000+256p\n\
            pw MPSAR+8p $bit\n\
            pw VMOLR+4p $accepts\n\
            pw PFVFRE $pools\n\
            pw PFVFTE $pools",
    ),
    // The receive ring of P begins anew.
    (
        "receive_ring",
        "w $p RXDCTL0 0\n\
            mw $p 0x1000 $buffers\n\
            w $p RDBAL0 0x1000\n\
            w $p RDLEN0 128\n\
            w $p RDH0 0\n\
            w $p SRRCTL0 $buffer_size\n\
            w $p RDT0 $tail\n\
            w $p RXDCTL0 $receive_on",
    ),
    // Receive 0 and the transmit queues of P raise vectors, which are on.
    (
        "interrupts",
        "w $p VTIVAR $routes\n\
            w $p VTEIAC $vectors\n\
            w $p VTEIMS $vectors",
    ),
    // P accepts frames to several, and shows each with a message.
    (
        "listens",
        "pw VMOLR+4p 0x1b000000\n\
            w $p VTIVAR 0x8180\n\
            w $p VTEIAC 7\n\
            w $p VTEIMS 7\n\
            r $p VTEICR",
    ),
    // The transmit ring Q of P begins anew.
    (
        "transmit_ring",
        "w $p TXDCTL0+64q 0\n\
            mw $p 0x2000+2048q $sends\n\
            w $p TDBAL0+64q 0x2000+2048q\n\
            w $p TDLEN0+64q 128\n\
            w $p TDH0+64q 0\n\
            w $p TDT0+64q $tail\n\
            w $p TXDCTL0+64q 0x02000000",
    ),
    ("serve", "serve $p $q"),
    // P sends a frame to O, to several, or to anyone, as soon as it is served.
    ("to_other", "mw $p 0x6000 $to_o"),
    ("to_several", "mw $p 0x6000 $to_several"),
    ("to_anyone", "mw $p 0x6000 $frame"),
    ("wire", "wire $frame"),
    ("wire_to_p", "wire $to_p"),
    ("wire_to_several", "wire $to_several"),
    // What was received shows, and may raise a message again.
    (
        "look",
        "mr $p 0x1000 $short\n\
            mr $p $buffer $short\n\
            r $p RDH0\n\
            r $p VFGPRC\n\
            r $p VTEICR",
    ),
    ("loopback", "pw PFDTXGSWC 1"),
    ("one_or_no_loopback", "pw PFDTXGSWC $one_or_none"),
    ("may_transmit", "pw PFVFTE 0xf"),
    (
        "all_permitted",
        "pw PFVFRE 0xf\n\
            pw PFVFTE 0xf",
    ),
    ("accepts", "pw VMOLR+4p $accepts"),
    // Two VLANs, and the pools that are in them.
    (
        "vlans",
        "pw VFTA $mostly\n\
            pw VLVF $first_vlan\n\
            pw VLVFB $pools\n\
            pw VFTA+4 $mostly\n\
            pw VLVF+4 $second_vlan\n\
            pw VLVFB+8 $pools\n\
            pw VLNCTRL $vlans_filtered",
    ),
    ("no_vlans", "pw VLNCTRL 0"),
    (
        "groups",
        "pw MCSTCTRL $hash\n\
            pw $multicast_table $mostly",
    ),
    // A frame that nobody accepts falls to the default pool, if there is one.
    (
        "default_pool",
        "pw PF_VT_CTL $default_pool\n\
            wire $to_nobody\n\
            wire $to_nobody",
    ),
    // P is the default pool.
    (
        "default_is_p",
        "pw PF_VT_CTL 0x0+128p\n\
            wire $to_nobody",
    ),
    (
        "no_default_pool",
        "pw PF_VT_CTL 0x20000000\n\
            wire $to_nobody",
    ),
    // P falls out of the pools that may receive, and comes back.
    (
        "no_receiving",
        "pw PFVFRE $others\n\
            wire $to_p\n\
            mr $p 0x1000 $short\n\
            r $p VFGPRC\n\
            pw PFVFRE 0xf\n\
            wire $to_p",
    ),
    // P falls out of the pools that may transmit, and comes back.
    (
        "no_sending",
        "pw PFVFTE $others\n\
            serve $p $q\n\
            serve $p $q\n\
            pw PFVFTE 0xf\n\
            serve $p $q",
    ),
    ("reset", "preset"),
    ("checks", "pw PFVFSPOOF $checks"),
    ("port_vlan", "pw VMVIR+4p $port_vlan"),
    ("life", "$life $p"),
    (
        "causes",
        "w $p VTEICS $vectors\n\
            w $p $interrupt $vectors\n\
            r $p VTEICR",
    ),
    // Anything.
    (
        "noise",
        "r $p $vf\n\
            r $any $vf\n\
            w $any $vf $word\n\
            pr $pf\n\
            mr $any $address $length\n\
            mr $p $address $length\n\
            serve $any $any_queue",
    ),
    (
        "noisy_writes",
        "mw $any $address $bytes\n\
            w $p $vf $word\n\
            pw $pf $word\n\
            pr $pf\n\
            $life $any",
    ),
];

/// The words that are drawn by chance, in rows.
pub static WORDS: [(&str, &str); 30] = [
    // where frames go to and come from
    (
        "anyone",
        "020000000000 020000000001 020000000002 020000000003 020000000000 020000000001 020000000002 \
            020000000003 020000000109 01005e000000 01005e000002 ffffffffffff",
    ),
    ("nobody", "020000000109"),
    ("several", "01005e000000 01005e000002 ffffffffffff"),
    // words of registers
    ("pools", "0xf 0xf 0xf 0xf 0xf 0xf 0xf 0xffffffff 0x7 0xa"),
    (
        "buffer_size",
        "0x02000001 0x02000001 0x02000001 0x02000001 0x02000002 0x02000002 0x02000002 0x02000004 0x02000010 \
            0x0200001f 0x04000002",
    ),
    ("tail", "7 7 7 7 7 7 7 7 7 5 4 3 2 1 0 8"),
    ("receive_on", "0x02000000 0x02000000 0x42000000"),
    (
        "routes",
        "0x8180 0x8180 0x82818180 0x82818180 0x80828081 0x83838382 0x0",
    ),
    ("vectors", "7 7 7 7 7 7 7 7 5 3 1 0xffffffff"),
    (
        "accepts",
        "0x1b000000 0x1b000000 0x1b000000 0x0b000000 0x09000000 0x01000000 0x08000000 0 0xffffffff",
    ),
    ("mostly", "0xffffffff 0xffffffff 0xffffffff 0x6 0"),
    (
        "first_vlan",
        "0x80000001 0x80000001 0x80000002 0x80000000 0x1",
    ),
    (
        "second_vlan",
        "0x80000021 0x80000021 0x80000001 0x80000fff 0xffffffff",
    ),
    ("vlans_filtered", "0 0 0 0x40000000 0x40000000"),
    ("hash", "4 4 5 6 7 0 3"),
    ("multicast_table", "MTA MTA MTA+4 MTA+32"),
    ("default_pool", "0 0x80 0x100 0x180 0x200 0x1f80 0x20000080"),
    ("checks", "0 0xf 0xf 0xf00 0xf0f 0x203 0xffffffff"),
    ("port_vlan", "0 0x40000001 0x4000a021 0x80000000 0xc0000001"),
    // other words of lines
    ("short", "16 32 48 128"),
    ("buffer", "0x3000 0x3000 0x3000 0x3400 0x3800 0x3c00"),
    ("life", "open flr flr end end"),
    ("interrupt", "VTEICS VTEICS VTEIMS VTEIMC VTEIAC VTEICR"),
    ("one_or_none", "1 1 0"),
    ("any", "0 0 0 1 1 1 2 2 2 3 3 3 4 63 64 255"),
    ("any_queue", "0 1"),
    (
        "address",
        "0 0x1000 0x1ff8 0x2000 0x2808 0x6000 0x7ff0 0x8000 0x8001 0xffffffffffffffff",
    ),
    ("length", "0 1 16 60 128 2048 2049 2049 65535"),
    (
        "bytes",
        "- 00*16 ff*8 0060000000000000.3c00302900000000 0060000000000000.3c00000900000000 020000000001 \
            5a*2048",
    ),
    (
        "vf",
        "VFCTRL VFLINKS VTEICR VTEICS VTEIMS VTEIMC VTEIAC VTEIAM VTIVAR VTIVAR_MISC VTEITR0 RDBAL0 RDBAH0 RDLEN0 \
            RDH0 SRRCTL0 RDT0 VFGPRC RXDCTL0 RDBAL1 RDBAH1 RDLEN1 RDH1 SRRCTL1 RDT1 RXDCTL1 TDBAL0 TDBAH0 \
            TDLEN0 TDH0 TDT0 VFGPTC TXDCTL0 TDBAL1 TDBAH1 TDLEN1 TDH1 TDT1 TXDCTL1 0x14 0x105c 0x3ffc 0x4000 0x102 \
            0x20000000 0xffffffff",
    ),
];

/// The registers of the physical function, as rows: the first offset, the step to the next one, and how many there are. The
/// last rows are offsets that no register stands at.
pub static PF_REGISTERS: [(u32, u64, u64); 22] = [
    (PFVFLRE0, 4, 1),
    (PFVFLRE1, 4, 1),
    (PFVFLREC, 4, 2),
    (VLNCTRL, 4, 1),
    (MCSTCTRL, 4, 1),
    (PF_VT_CTL, 4, 1),
    (PFVFRE, 4, 2),
    (MTA, 4, 128),
    (VMVIR, 4, 64),
    (PFVFTE, 4, 2),
    (PFVFSPOOF, 4, 8),
    (PFDTXGSWC, 4, 1),
    (VFTA, 4, 128),
    (RAL, 8, 128),
    (RAH, 8, 128),
    (MPSAR, 4, 256),
    (VMOLR, 4, 64),
    (VLVF, 4, 64),
    (VLVFB, 4, 128),
    (0x0, 4, 0x8000),
    (0x51b1, 1, 3),
    (0x20000, 4, 64),
];
