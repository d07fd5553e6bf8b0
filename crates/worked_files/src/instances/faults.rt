//! What is told of files with a fault, worked out by hand.

ghost use Rattle.std.specs.Prelude.{◌<◌};
ghost use Rattle.instance_shape.specs.Ranges.{AreStandard};

use crate::instances::samples::{GOOD, PIECES, of_file, slack};
use instance_model::Limits;
use instance_read::{InstanceFault, StreamFault, read_instance};
use instance_rows::{CrossFault, RowsFault};
use plan_desk::DeskCall;
use std::alloc::{AllocError, Global};
use std::process::Abort;
use std::test::Fail;

/// A part of the file, what stands in its place, and what is told of the file then.
type Edit = (&'static str, &'static str, &'static str);

/// Files with a fault or more, of which one counts, and at the end one without.
const FAULTS: [Edit; 45] = [
    // Of the text, also behind a fault of shape.
    (r#""T":2"#, r#""T":02"#, "Syntax { at: 407 }"),
    (r#""T":2"#, r#""x":[[[[[[[[[[[[[[[["#, "TooDeep { at: 421 }"),
    (
        r#""Delta":[2,9]"#,
        r#""Delta":null,"x":[2,,9]"#,
        "Syntax { at: 126 }",
    ),
    // Of the shape: the second of two equal keys.
    (r#""T":2"#, r#""T":2,"T":2"#, "Double { at: 408 }"),
    (
        r#""02":{"1":[3,1]}"#,
        r#""01":{"1":[3,1]}"#,
        "Double { at: 191 }",
    ),
    (
        r#"{"1":[1]}"#,
        r#"{"1":[1],"001":[1]}"#,
        "Double { at: 190 }",
    ),
    (
        r#""s":[2,"7"]"#,
        r#""s":[2],"\u0073":[7]"#,
        "Double { at: 68 }",
    ),
    (r#""c":{"max""#, r#""c 1":{"max""#, "BadName { at: 14 }"),
    (r#"["a","b","s"]"#, r#"["a","","s"]"#, "BadName { at: 363 }"),
    (r#","min":[0,0.25]"#, "", "Missing { at: 30, key: Min }"),
    (
        r#""Quantile":0.95,"#,
        "",
        "Missing { at: 416, key: Quantile }",
    ),
    (r#""Alpha":0.5,"T":2,"#, "", "Missing { at: 414, key: T }"),
    (r#""tmax":1"#, r#""tmax":1.5"#, "Shape { at: 104 }"),
    (r#""3":{"9""#, r#""x":{"9""#, "Shape { at: 208 }"),
    (r#"["a","b","s"]"#, r#"["a","b"]"#, "Shape { at: 366 }"),
    (
        r#"["a","b","s"]"#,
        r#"["a","b","s",4]"#,
        "Shape { at: 371 }",
    ),
    ("0.95", "0", "Shape { at: 385 }"),
    ("-0.5", "-1e8", "TooLarge { at: 160 }"),
    (r#""T":2"#, r#""T":0"#, "Limit { at: 406, which: Periods }"),
    ("[1,2]}", "[1,1025]}", "Limit { at: 430, which: Scenarios }"),
    // The lesser place counts, though a missing key comes first at one place.
    (
        r#""max":[3,3],"min":[0,0.25]"#,
        r#""max":[1e8]"#,
        "TooLarge { at: 26 }",
    ),
    (
        r#""tmax":1,"Delta":[2,9]"#,
        r#""tmax":[],"Delta":1"#,
        "Shape { at: 104 }",
    ),
    // Behind a fault across the file.
    (
        r#"["a","b","s"]"#,
        r#"["a","x","s",4]"#,
        "Shape { at: 371 }",
    ),
    // Across the file.
    ("[1,2]}", "[1]}", "ScenarioList"),
    (r#""T":2"#, r#""T":3"#, "ScenarioList"),
    (
        "[3,3]",
        "[3]",
        r#"BandLength { resource: Text { text: "c" } }"#,
    ),
    (
        "[3,3]",
        "[3,3,3]",
        r#"BandLength { resource: Text { text: "c" } }"#,
    ),
    (
        "[0,0.25]",
        "[0]",
        r#"BandLength { resource: Text { text: "c" } }"#,
    ),
    (
        r#""tmax":1"#,
        r#""tmax":0"#,
        r#"BadTmax { intervention: Text { text: "a" } }"#,
    ),
    (
        r#""tmax":2"#,
        r#""tmax":3"#,
        r#"BadTmax { intervention: Text { text: "b" } }"#,
    ),
    (
        "[1,1]",
        "[1]",
        r#"NoDelta { intervention: Text { text: "b" } }"#,
    ),
    (
        r#"{"c":{"1""#,
        r#"{"d":{"1""#,
        r#"Unknown { name: Text { text: "d" } }"#,
    ),
    (
        r#""02":{"1""#,
        r#""02":{"2""#,
        r#"NoRisk { intervention: Text { text: "a" }, period: 2, start: 1 }"#,
    ),
    (
        r#""1":{"1":[1]},"02":{"1":[3,1]},"#,
        r#""1":{"1":[1,1]},"#,
        r#"ScenarioCount { intervention: Text { text: "a" }, period: 1, start: 1 }"#,
    ),
    (
        r#""1":[2]},"2":{"2""#,
        r#""2":[2]},"2":{"1""#,
        r#"NoRisk { intervention: Text { text: "b" }, period: 1, start: 1 }"#,
    ),
    (
        "[3,1]",
        "[3]",
        r#"ScenarioCount { intervention: Text { text: "a" }, period: 2, start: 1 }"#,
    ),
    (
        r#"["a","b","s"]"#,
        r#"["x","b","s"]"#,
        r#"Unknown { name: Text { text: "x" } }"#,
    ),
    (
        r#"["a","b","s"]"#,
        r#"["a","s","b"]"#,
        r#"Unknown { name: Text { text: "s" } }"#,
    ),
    (
        r#"["a","b","s"]"#,
        r#"["a","b","b"]"#,
        r#"Unknown { name: Text { text: "b" } }"#,
    ),
    // Of several across the file the first in the order of the format: of lists, then bands, then of interventions, one
    // by one, then of exclusions.
    (
        r#""T":2,"Scenarios_number":[1,2]"#,
        r#""T":1,"Scenarios_number":[1]"#,
        r#"BandLength { resource: Text { text: "c" } }"#,
    ),
    (
        r#""02":{"1":[3,1]},"3":{"9":[0.0000000000001]}}},
"b":{"tmax":2"#,
        r#""3":{"9":[0.0000000000001]}}},
"b":{"tmax":3"#,
        r#"NoRisk { intervention: Text { text: "a" }, period: 2, start: 1 }"#,
    ),
    (
        r#"[2,9],
"workload":{"c":{"1""#,
        r#"[],
"workload":{"d":{"1""#,
        r#"NoDelta { intervention: Text { text: "a" } }"#,
    ),
    (
        r#""workload":{},
"risk":{"1":{"1":[2]},"#,
        r#""workload":{"d":{}},
"risk":{"#,
        r#"Unknown { name: Text { text: "d" } }"#,
    ),
    (
        r#"[1,5.0000000000001]}},
"Delta":[1,1]}},
"Exclusions":{"e":["a","b","s"]}"#,
        r#"[1]}},
"Delta":[1,1]}},
"Exclusions":{"e":["a","x","s"]}"#,
        r#"ScenarioCount { intervention: Text { text: "b" }, period: 2, start: 2 }"#,
    ),
    // A start that is not allowed needs no risks.
    ("[1,1]", "[1,2]", "read"),
];

/// One thing more than the limits allow.
const PAST_LIMITS: [Edit; 10] = [
    ("", "", "read"),
    (r#""T":2"#, r#""T":3"#, "Limit { at: 406, which: Periods }"),
    ("[1,2]}", "[1,3]}", "Limit { at: 430, which: Scenarios }"),
    (
        "0.25]}}",
        r#"0.25]},"d":0}"#,
        "Limit { at: 47, which: Resources }",
    ),
    (
        r#""s":[2,"7"]"#,
        r#""s":[2],"r":[7]"#,
        "Limit { at: 68, which: Seasons }",
    ),
    // At one place an equal key comes first.
    (r#""s":[2,"7"]"#, r#""s":[2],"s":[7]"#, "Double { at: 68 }"),
    (
        "[1,1]}}",
        r#"[1,1]},"c":0}"#,
        "Limit { at: 338, which: Interventions }",
    ),
    (
        r#""s"]}"#,
        r#""s"],"f":0}"#,
        "Limit { at: 372, which: Exclusions }",
    ),
    (
        r#""1":[2]"#,
        r#""1":[2,2]"#,
        "Limit { at: 305, which: RiskCells }",
    ),
    (
        "-0.5",
        r#"-0.5,"2":1"#,
        "Limit { at: 169, which: WorkloadEntries }",
    ),
];

/// Files with one fault each, in words.
const WORDS: [Edit; 15] = [
    (r#""T":2"#, r#""T":02"#, "no JSON text from byte 407 on"),
    (
        r#""T":2"#,
        r#""x":[[[[[[[[[[[[[[[["#,
        "nested too deep at byte 421",
    ),
    (
        r#""T":2"#,
        r#""T":2,"T":2"#,
        "the key at byte 408 stands there again",
    ),
    (r#""c":{"max""#, r#""c 1":{"max""#, "no name at byte 14"),
    (
        r#""Alpha":0.5,"T":2,"#,
        "",
        "a required key is missing before byte 414",
    ),
    (
        r#""tmax":1"#,
        r#""tmax":1.5"#,
        "not the shape that is due at byte 104",
    ),
    ("-0.5", "-1e8", "too large a number at byte 160"),
    (r#""T":2"#, r#""T":0"#, "past a limit at byte 406"),
    (
        "[1,2]}",
        "[1]}",
        "not one number of scenarios for each period",
    ),
    ("[3,3]", "[3]", "a band has not one limit for each period"),
    (
        r#""tmax":1"#,
        r#""tmax":0"#,
        "a tmax is outside the periods",
    ),
    ("[1,1]", "[1]", "a list of durations is too short"),
    (
        r#"["a","b","s"]"#,
        r#"["a","b","b"]"#,
        "a name is not one of the file's",
    ),
    (
        r#""02":{"1""#,
        r#""02":{"2""#,
        "no risks in period 2 at start 1",
    ),
    (
        "[3,1]",
        "[3]",
        "not one risk for each scenario in period 2 at start 1",
    ),
];

/// Limits that the file just keeps.
fn narrow() -> Limits
    ensures { AreStandard result }
{
    let mut limits = Limits::standard();
    limits.periods = 2;
    limits.resources = 1;
    limits.interventions = 2;
    limits.scenarios = 2;
    limits.seasons = 1;
    limits.exclusions = 1;
    limits.risk_cells = 7;
    limits.workload_entries = 2;
    limits
}

/// What is told of bytes, unless memory ran out.
fn told(alloc: Global, limits: &Limits, bytes: &[u8]) -> Result<String, AllocError>
    requires { AreStandard limits.now }
{
    match read_instance(alloc, limits, slack(), bytes) {
        Ok(_) => String::from_str(alloc, "read"),
        Err(InstanceFault::Memory) => Err(AllocError),
        Err(fault) => format!(in alloc; "{fault:?}"),
    }
}

/// What is told of a file that is read by pieces of at most so many bytes, where this call fails, unless memory ran
/// out.
fn told_of_file(
    alloc: Global,
    limits: &Limits,
    bytes: &[u8],
    most: usize,
    failing: Option<(DeskCall, u32)>,
) -> Result<String, AllocError>
    requires limits { AreStandard limits.now }
    requires some { 0 < most }
{
    match of_file(alloc, limits, bytes, most, failing) {
        Ok(_) => String::from_str(alloc, "read"),
        Err(StreamFault::Memory) => Err(AllocError),
        Err(StreamFault::Text(fault)) => format!(in alloc; "{fault:?}"),
        Err(fault) => format!(in alloc; "{fault:?}"),
    }
}

/// The same in words, where no call fails.
fn words_of_file(alloc: Global, bytes: &[u8]) -> Result<String, AllocError> {
    match of_file(alloc, &Limits::standard(), bytes, 4096, None) {
        Ok(_) => String::from_str(alloc, "read"),
        Err(StreamFault::Memory) => Err(AllocError),
        Err(fault) => format!(in alloc; "{fault}"),
    }
}

/// Of each edited file this is told, whether it is read from bytes or by pieces.
fn tells(rt: &impl Abort, alloc: Global, limits: &Limits, edits: &[Edit]) -> Result<(), AllocError>
    requires { AreStandard limits.now }
{
    for (old, new, want) in edits {
        let text = GOOD.replacen(alloc, *old, new, 1)?;
        let bytes = text.as_bytes();
        let answer = told(alloc, limits, bytes)?;
        assert_eq!(rt; answer.as_str(), *want, "{new}");
        for most in PIECES {
            let answer = told_of_file(alloc, limits, bytes, most, None)?;
            assert_eq!(rt; answer.as_str(), *want, "{new} by {most}");
        }
    }
    Ok(())
}

#[test]
fn a_cut_file_ends_too_early(rt: HostRuntime) -> Result<(), Fail> {
    let alloc = rt.alloc();
    let limits = Limits::standard();
    let bytes = GOOD.as_bytes();
    for n in 0..bytes.len() {
        let cut = &bytes[..n];
        let want = format!(in alloc; "Syntax {{ at: {n} }}")?;
        let answer = told(alloc, &limits, cut)?;
        assert_eq!(rt; answer.as_str(), want.as_str());
        let answer = told_of_file(alloc, &limits, cut, 7, None)?;
        assert_eq!(rt; answer.as_str(), want.as_str());
    }
    Ok(())
}

#[test]
fn the_fault_that_counts_is_told(rt: HostRuntime) -> Result<(), Fail> {
    tells(&rt, rt.alloc(), &Limits::standard(), &FAULTS)?;
    tells(&rt, rt.alloc(), &narrow(), &PAST_LIMITS)?;
    Ok(())
}

#[test]
fn a_read_fault_and_a_long_file_win(rt: HostRuntime) -> Result<(), Fail> {
    let alloc = rt.alloc();
    // The file has 436 bytes with a fault of shape at 104, 432 with a fault of the text at 1, and is read by 100 bytes.
    let shape = (r#""tmax":1"#, r#""tmax":null"#);
    let syntax = (r#"{"R"#, "{R");
    let cases = [
        (shape, 436, Some((DeskCall::TakeIn, 1)), "Failed"),
        (shape, 436, Some((DeskCall::Read, 3)), "Failed"),
        (shape, 436, Some((DeskCall::Read, 6)), "Failed"),
        (shape, 436, Some((DeskCall::Read, 7)), "Shape { at: 104 }"),
        (shape, 435, None, "TooLong"),
        (syntax, 432, Some((DeskCall::Read, 5)), "Failed"),
        (syntax, 432, None, "Syntax { at: 1 }"),
        (syntax, 431, None, "TooLong"),
        // The limit is passed by the second read.
        (syntax, 150, Some((DeskCall::Read, 2)), "Failed"),
        (syntax, 150, Some((DeskCall::Read, 3)), "TooLong"),
    ];
    for ((old, new), limit, failing, want) in cases {
        let text = GOOD.replacen(alloc, old, new, 1)?;
        let mut limits = Limits::standard();
        limits.instance_bytes = limit;
        let answer = told_of_file(alloc, &limits, text.as_bytes(), 100, failing)?;
        assert_eq!(rt; answer.as_str(), want, "{new} {limit}");
    }
    Ok(())
}

#[test]
fn faults_are_put_into_words(rt: HostRuntime) -> Result<(), Fail> {
    let alloc = rt.alloc();
    for (old, new, want) in WORDS {
        let text = GOOD.replacen(alloc, old, new, 1)?;
        let words = words_of_file(alloc, text.as_bytes())?;
        assert_eq!(rt; words.as_str(), want);
    }
    for (fault, want) in &[
        (StreamFault::Failed, "the file could not be read"),
        (StreamFault::TooLong, "the file is too long"),
        (StreamFault::Memory, "out of memory"),
        (StreamFault::Text(InstanceFault::Memory), "out of memory"),
    ] {
        let words = format!(in alloc; "{fault}")?;
        assert_eq!(rt; words.as_str(), *want);
    }
    Ok(())
}

/// A fault of rows is put into these words.
fn says(rt: &impl Abort, alloc: Global, fault: RowsFault, want: &str) -> Result<(), AllocError> {
    let words = format!(in alloc; "{fault}")?;
    assert_eq!(rt; words.as_str(), want);
    Ok(())
}

/// A fault across the rows is put into these words.
fn says_across(
    rt: &impl Abort,
    alloc: Global,
    fault: CrossFault,
    want: &str,
) -> Result<(), AllocError> {
    says(rt, alloc, RowsFault::Across(fault), want)
}

#[test]
fn faults_of_rows_are_put_into_words(rt: HostRuntime) -> Result<(), Fail> {
    let alloc = rt.alloc();
    let name = |text: &str| String::from_str(alloc, text);
    says_across(
        &rt,
        alloc,
        CrossFault::ScenarioList,
        "the list of scenario numbers hasn't one element per period",
    )?;
    says_across(
        &rt,
        alloc,
        CrossFault::BandLength(name("crew")?),
        "a band of crew hasn't one limit per period",
    )?;
    says_across(
        &rt,
        alloc,
        CrossFault::BadTmax(name("north")?),
        "tmax of north is no period",
    )?;
    says_across(
        &rt,
        alloc,
        CrossFault::NoDelta(name("north")?),
        "north has fewer than tmax durations",
    )?;
    says_across(
        &rt,
        alloc,
        CrossFault::Unknown(name("west")?),
        "nothing has the name west",
    )?;
    says_across(
        &rt,
        alloc,
        CrossFault::NoRisk {
            intervention: name("south")?,
            period: 2,
            start: 1,
        },
        "south has no risks in period 2 at start 1",
    )?;
    says_across(
        &rt,
        alloc,
        CrossFault::ScenarioCount {
            intervention: name("south")?,
            period: 2,
            start: 1,
        },
        "south has too few or too many risks in period 2 at start 1",
    )?;
    says(&rt, alloc, RowsFault::Memory, "out of memory")?;
    Ok(())
}
