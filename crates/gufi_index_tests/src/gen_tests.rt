//! Printed traces.

use gufi_base::Memory;
use gufi_gen::gen_trace;

const TWO: &[u8] = b"/g|d|1|493|1|1000|100|4096|4096|8|1700000000|1700000000|1700000000|
/g/d1|d|2|493|1|1001|101|4096|4096|8|1699999999|1699999999|1699999999|
/g/d1/f0|f|1000005|420|1|1001|101|37|4096|8|1699999999|1699999999|1699999999|
";

#[test]
fn a_trace_is_generated(rt: HostRuntime) -> Result<(), Memory> {
    let text = gen_trace(rt.alloc(), 2, b'|')?;
    assert_eq!(rt; text.as_slice(), TWO);
    Ok(())
}
