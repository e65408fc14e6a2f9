// Lines that lie across two blocks.
use super::repeated;
use std::test::Fail;

#[test]
fn lines_lie_across_blocks(rt: HostRuntime) -> Result<(), Fail> {
    let alloc = rt.alloc();
    // each line has 1,013 bytes, which divides no block
    let digits = repeated(alloc, "mw 0 2048 ", "5a", 501)?;
    let mut line = String::from_utf8(digits)?;
    line.push_str("\n")?;
    let text = repeated(alloc, "vfs 1 4096\nopen 0\n", line.as_str(), 500)?;
    let wanted = repeated(
        alloc,
        "vfs 1 4096 1518\nopen 0\n",
        "mw 0 2048 5a*501.\n",
        500,
    )?;
    let wanted = String::from_utf8(wanted)?;
    super::check_said(&rt, text.as_slice(), wanted.as_str())
}
