use grid_gen::*;

#[test]
fn the_smallest_side(rt: HostRuntime) {
    let inputs = generate(rt.alloc(), 0, 24).expect(&rt, "memory");
    let def = inputs.def.as_slice();
    assert!(rt;
        def.starts_with(
            b"VERSION 5.8 ;\nDESIGN generated ;\nUNITS DISTANCE MICRONS 2000 ;\nDIEAREA ( 0 0 ) ( 67200 67200 ) ;\nROW row_0 unit 0 0 N DO 168 BY 1 STEP 400 0 ;\nROW row_1 unit 0 2800 FS DO 168 BY 1 STEP 400 0 ;\n"
        )
    );
    assert!(rt; def.ends_with(b" + PLACED ( 64400 64400 ) FS ;\nEND COMPONENTS\nEND DESIGN\n"));
    let bias = inputs.bias.as_slice();
    assert!(rt;
        bias.ends_with(
            b"cell C3 1u\npad VSS metal7 0.0 2.0\npad VSS metal7 33.6 2.0\npad VDD metal7 0.0 22.0\npad VDD metal7 33.6 22.0\n"
        )
    );
}
