//! The texts of no steps. Whole texts are compared where netlists are stepped.
use crate::same::same;
use outside::Name;
use std::process::Abort;
use step_texts::{certificate_of_steps, report_of_steps};

/// The names of the two nodes.
fn names(rt: &(impl Abort + AllocGlobal)) -> Vec<Name> {
    let first = Name::new(rt.alloc(), b"n").expect(rt, "memory");
    let second = Name::new(rt.alloc(), b"p").expect(rt, "memory");
    vec![in rt.alloc(); first, second].expect(rt, "memory")
}

/// No steps give the first line and the last of the report.
#[test]
fn no_steps(rt: HostRuntime) {
    let names = names(&rt);
    let none = Vec::new(rt.alloc());
    let certificate = certificate_of_steps(rt.alloc(), &names, &none, &none).expect(&rt, "memory");
    same(&rt, certificate.as_slice(), b"".as_slice());
    let report = report_of_steps(rt.alloc(), &names, &none, &none).expect(&rt, "memory");
    same(&rt, report.as_slice(), b"pdn steps 1\nend\n".as_slice());
}
