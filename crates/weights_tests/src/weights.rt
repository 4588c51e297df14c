use c_base::number::BaseId;
use c_types::duplicate::Mem;
use c_weights::weight;
use std::alloc::Global;
use std::test::Fail;
use typed_parts::programs::{Body, program_of};

/// The weight of main with these words, where the functions' names are used.
fn weight_of(alloc: Global, named: &str, text: &str) -> Mem<u64> {
    let main = Body {
        function: b'm',
        formals: "",
        locals: "",
        text,
    };
    let program = program_of(alloc, named, &[main])?;
    Ok(weight(&program, BaseId(0)))
}

/// `int x=0; while(x<10) x=x+1; return x;`
#[test]
fn a_loop_is_weighed(rt: HostRuntime) -> Result<(), Fail> {
    let text = "x 0 init x x 1 + = ; x 10 < while x return";
    assert!(rt; weight_of(rt.alloc(), "", text)? == 16);
    Ok(())
}

#[test]
fn calls_by_pointers_count_what_they_may_enter(rt: HostRuntime) -> Result<(), Fail> {
    let alloc = rt.alloc();
    for (text, named, expected) in [
        ("f call/0 return", "fh", 5),
        ("q call/0 return", "", 5),
        ("q call/0 return", "f", 6),
        ("q call/0 return", "fm", 7),
    ] {
        assert!(rt; weight_of(alloc, named, text)? == expected);
    }
    Ok(())
}
