//! Examples of each answer.
use faults::Fault;
use motion::Settings;
use questions::{
    acknowledge, answer_fault, answer_parameters, answer_position, answer_version, refuse,
};
use std::process::Abort;
use std::test::Fail;

// The answer is this text, and the buffer after it is as it was.
fn check_text(
    rt: &impl Abort,
    out: &[u8],
    answer: Result<usize, Fault>,
    text: &[u8],
) -> Result<(), Fail> {
    match answer {
        Ok(len) => {
            assert_eq!(rt; len, text.len());
            assert!(rt; out.starts_with(text));
            assert!(rt; out.ends_with(&[1, 1]));
            Ok(())
        }
        Err(_) => Err(Fail::new("a buffer of 80 bytes is refused")),
    }
}

#[test]
fn texts_of_the_questions(rt: HostRuntime) -> Result<(), Fail> {
    let mut out = [1; 80];
    let answer = answer_parameters(&mut out, 0, &Settings::initial());
    check_text(&rt, &out, answer, b"00EL 00500 02000 01000 000000 +\r\x11")?;
    let answer = answer_position(&mut out, 7, -8_388_608, 0, 255);
    check_text(&rt, &out, answer, b"07EP -8388608 00 FF\r\x11")?;
    let answer = answer_version(&mut out, 63, 4);
    check_text(&rt, &out, answer, b"63EV 10 00000004\r\x11")
}

#[test]
fn texts_of_the_fault(rt: HostRuntime) -> Result<(), Fail> {
    let mut out = [1; 80];
    let answer = answer_fault(&mut out, 0, None);
    check_text(&rt, &out, answer, b"00EE N\r\x11")?;
    let answer = answer_fault(&mut out, 5, Some(Fault::bad_line()));
    check_text(&rt, &out, answer, b"05EE 8\r\x11")?;
    let answer = answer_fault(&mut out, 5, Some(Fault::wrong_address()));
    check_text(&rt, &out, answer, b"05EE 103\r\x11")
}

#[test]
fn short_answers(rt: HostRuntime) -> Result<(), Fail> {
    let mut out = [1; 80];
    let answer = acknowledge(&mut out);
    check_text(&rt, &out, answer, b"\x06\x11")?;
    let answer = refuse(&mut out);
    check_text(&rt, &out, answer, b"\x15\x11")?;
    let mut short = [1; 79];
    let answer = refuse(&mut short);
    assert!(rt; answer.is_err());
    Ok(())
}
