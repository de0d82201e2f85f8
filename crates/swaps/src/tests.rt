// Scripts that are run and compared, bad ones among them.
use crate::memory::NoMemory;
use crate::session::Session;
use std::alloc::{AllocError, Global};
use std::test::Fail;

// What a script prints, fed in blocks of one size.
fn transcript(heap: Global, script: &[u8]) -> Result<String, NoMemory> {
    let mut session = Session::new(heap)?;
    let mut out = String::new(heap);
    session.feed(script, &mut out)?;
    session.finish(&mut out)?;
    Ok(out)
}

// Whether a script prints this.
fn prints(heap: Global, script: &[u8], expected: &str) -> Result<bool, NoMemory> {
    let out = transcript(heap, script)?;
    Ok(out.as_str() == expected)
}

// A line of so many equal bytes.
fn long_line(heap: Global, byte: u8, count: usize) -> Result<Vec<u8>, AllocError> {
    vec![in heap; byte; count]
}

#[test]
fn blank_lines_and_comments_are_passed_over(rt: HostRuntime) -> Result<(), Fail> {
    assert!(rt;
        prints(
            rt.alloc(),
            b"\n# enter a = b\n\nlines\nenter a = b2\nlines",
            "no lines\nequation 1: a = b2\nline 1: a = b2\n",
        )?
    );
    Ok(())
}

#[test]
fn loads_are_read_as_they_are_printed(rt: HostRuntime) -> Result<(), Fail> {
    let script =
        b"replay 1\nreplay abcdefgh\nreplay a65535h2\nreplay a65536\nreplay ba\nreplay aa\nreplay a1\nreplay a0\nreplay a02\nreplay i\nreplay 2";
    let expected =
        "end: 1, net 0 0 0 0 0 0 0 0\nend: abcdefgh, net 0 0 0 0 0 0 0 0\nend: a65535h2, net 0 0 0 0 0 0 0 0\nline 4: not understood\nline 5: not understood\nline 6: not understood\nline 7: not understood\nline 8: not understood\nline 9: not understood\nline 10: not understood\nline 11: not understood\n";
    assert!(rt; prints(rt.alloc(), script, expected)?);
    Ok(())
}

#[test]
fn what_is_not_understood_changes_nothing(rt: HostRuntime) -> Result<(), Fail> {
    let script =
        b"enter a b\nenter a = b = c\nenter\nnew now\nreplay a 1 x\nreplay a 32768\nreplay a -32769\n\xff\xfe\nlines\n";
    let expected =
        "line 1: not understood\nline 2: not understood\nline 3: not understood\nline 4: not understood\nline 5: not understood\nline 6: not understood\nline 7: not understood\nline 8: not understood\nno lines\n";
    assert!(rt; prints(rt.alloc(), script, expected)?);
    Ok(())
}

#[test]
fn a_chain_is_followed_both_ways(rt: HostRuntime) -> Result<(), Fail> {
    let script =
        b"enter a2 = b\nenter a = b2\nreplay a3 1 -1 1\nreplay a3 1 1\nreplay ab65534 2\nreplay a2 1 -32768\n";
    let expected =
        "equation 1: a2 = b\nequation 2: a = b2\nend: ab, net -2 1 0 0 0 0 0 0\nrefused 12: replay, place 2\nrefused 7: step, place 1\nrefused 11: replay, place 2\n";
    assert!(rt; prints(rt.alloc(), script, expected)?);
    Ok(())
}

#[test]
fn a_line_of_100_000_characters_is_not_understood(rt: HostRuntime) -> Result<(), Fail> {
    let heap = rt.alloc();
    let mut script = long_line(heap, b'a', 100_000)?;
    script.extend_from_slice(b"\nlines\n")?;
    assert!(rt; prints(heap, &script, "line 1: not understood\nno lines\n")?);
    Ok(())
}

#[test]
fn the_longest_line_is_understood_and_no_longer_one(rt: HostRuntime) -> Result<(), Fail> {
    let heap = rt.alloc();
    let mut script = long_line(heap, b' ', 999_995)?;
    script.extend_from_slice(b"lines\n")?;
    script.extend_from_slice(&long_line(heap, b' ', 999_996)?)?;
    script.extend_from_slice(b"lines\n")?;
    assert!(rt; prints(heap, &script, "no lines\nline 2: not understood\n")?);
    Ok(())
}

#[test]
fn numbers_have_no_plus_sign(rt: HostRuntime) -> Result<(), Fail> {
    let script =
        b"replay a +1\nreplay a+2\nmatch a a +0 0\nsettle listed +1 1\nsettle weights +1,1,1,1,1,1,1,1 bulk 1 1\nreplay a -0\n";
    let expected =
        "line 1: not understood\nline 2: not understood\nline 3: not understood\nline 4: not understood\nline 5: not understood\nrefused 11: replay, place 1\n";
    assert!(rt; prints(rt.alloc(), script, expected)?);
    Ok(())
}

#[test]
fn a_chain_of_10_000_numbers_is_followed(rt: HostRuntime) -> Result<(), Fail> {
    let heap = rt.alloc();
    let mut script = Vec::new(heap);
    script.extend_from_slice(b"enter a = b\nreplay a")?;
    for _ in 0..5_000 {
        script.extend_from_slice(b" 1 -1")?;
    }
    assert!(rt;
        prints(
            heap,
            &script,
            "equation 1: a = b\nend: a, net 0 0 0 0 0 0 0 0\n",
        )?
    );
    Ok(())
}
