//! Texts of drawn instances: whole ones by their sums, and how they begin.

use instance_gen::generate;
use std::test::Fail;

/// The sums are those of Adler-32, taken of a text that was made apart from this program.
#[test]
fn writes_the_first_instance(rt: HostRuntime) -> Result<(), Fail> {
    let text = generate(rt.alloc(), 0, 1)?.into_string();
    let mut sum: u64 = 0;
    let mut weighed: u64 = 0;
    for byte in text.as_bytes() {
        sum = sum.wrapping_add(u64::from(*byte)) % 65_521;
        weighed = weighed.wrapping_add(sum) % 65_521;
    }
    assert_eq!(rt; text.len(), 7_573);
    assert_eq!(rt; (sum, weighed), (12647, 17757));
    Ok(())
}

#[test]
fn begins_with_the_limits(rt: HostRuntime) -> Result<(), Fail> {
    let text = generate(rt.alloc(), 7, 40)?.into_string();
    let start = b"{\"Resources\":{\"c1\":{\"max\":[29,29,";
    assert_eq!(rt; text.len(), 269_957);
    assert!(rt; text.as_bytes().starts_with(start));
    Ok(())
}
