//! Names, the numbers of keys, and the standard limits.

use instance_model::Limits;
use instance_shape::{is_name, number_of};

#[test]
fn names_and_numbers(rt: HostRuntime) {
    assert!(rt; is_name("I1"));
    assert!(rt; !is_name(""));
    assert!(rt; !is_name("I 1"));
    assert!(rt; !is_name("I\x7f"));
    assert_eq!(rt; number_of("1"), Some(1));
    assert_eq!(rt; number_of("007"), Some(7));
    assert_eq!(rt; number_of("999999999"), Some(999_999_999));
    assert_eq!(rt; number_of("1000000000"), None);
    assert_eq!(rt; number_of("-1"), None);
    assert_eq!(rt; number_of(""), None);
}

#[test]
fn standard_sizes_of_files(rt: HostRuntime) {
    let limits = Limits::standard();
    assert_eq!(rt; limits.periods, 512);
    assert_eq!(rt; limits.instance_bytes, 0x7fff_ffff);
    assert_eq!(rt; limits.plan_bytes, 1 << 24);
    assert_eq!(rt; limits.certificate_bytes, 1 << 28);
    assert_eq!(rt; limits.script_bytes, 1 << 29);
}
