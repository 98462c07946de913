//! Designs and scripts that a program made up, with numbers drawn at random.

/// Each design with its script.
pub(crate) const MADE: [(&str, &str); 12] = [
    (
        "DESIGN d0 ; UNITS DISTANCE MICRONS 2000 ; DIEAREA ( -400 0 ) ( 14400 5600 ) ;
ROW r0 unit 0 0 N DO 36 BY 1 STEP 400 0 ;
ROW r1 unit 0 2800 FS DO 36 BY 1 STEP 400 0 ;
BLOCKAGES 1 ;
END BLOCKAGES
END DESIGN
",
        "set_voltage_domain -power + -ground (
define_pdn_grid -name g
add_pdn_stripe -layer metal1 -width 0.17 -followpins
add_pdn_stripe -layer metal4 -width 0.226 -pitch 2.6 -offset 1.5 -nets {+}
add_pdn_connect -layers {metal1 metal4}
pdngen
",
    ),
    (
        "DESIGN d1 ; UNITS DISTANCE MICRONS 2000 ; DIEAREA ( -400 0 ) ( 11200 2800 ) ;
ROW r0 unit 0 0 N DO 28 BY 1 STEP 400 0 ;
BLOCKAGES 1 ;
- LAYER via2 RECT ( 9513 1840 ) ( 10356 2267 ) ;
- LAYER + RECT ( 5192 2561 ) ( 7052 3956 ) ;
END BLOCKAGES
END DESIGN
",
        "set_voltage_domain -power + -ground END
define_pdn_grid -name g
add_pdn_stripe -layer metal1 -width 0.17 -followpins
add_pdn_stripe -layer metal4 -width 0.358 -pitch 2.8 -offset 1.5
add_pdn_connect -layers {metal1 metal4}
add_pdn_ring -layers {+ metal4} -widths {0.180 0.5} -spacings 0.4 -core_offsets 0.6 -add_connect
pdngen
",
    ),
    (
        "DESIGN d2 ; UNITS DISTANCE MICRONS 2000 ; DIEAREA ( -400 0 ) ( 22400 5600 ) ;
ROW r0 unit 0 0 N DO 56 BY 1 STEP 400 0 ;
ROW r1 unit 0 2800 FS DO 56 BY 1 STEP 400 0 ;
BLOCKAGES 1 ;
- LAYER metal1 RECT ( 6613 774 ) ( 6784 1163 ) ;
END BLOCKAGES
END DESIGN
",
        "set_voltage_domain -power + -ground END
define_pdn_grid -name g
add_pdn_stripe -layer metal1 -width 0.17 -followpins
add_pdn_stripe -layer metal4 -width 0.296 -pitch 4.4 -offset 0.5
add_pdn_connect -layers {metal1 metal4}
add_pdn_stripe -layer + -width 0.2 -pitch 2.8 -offset 0.7
add_pdn_connect -layers {+ metal4}
pdngen
",
    ),
    (
        "DESIGN d3 ; UNITS DISTANCE MICRONS 2000 ; DIEAREA ( -400 0 ) ( 8400 2800 ) ;
ROW r0 unit 0 0 N DO 21 BY 1 STEP 400 0 ;
BLOCKAGES 1 ;
- LAYER + RECT ( 3599 2350 ) ( 4085 2464 ) ;
- LAYER metal1 RECT ( 4927 1144 ) ( 5207 2566 ) ;
END BLOCKAGES
END DESIGN
",
        "set_voltage_domain -power END -ground +
define_pdn_grid -name g
add_pdn_stripe -layer metal1 -width 0.17 -followpins
add_pdn_stripe -layer metal4 -width 0.446 -pitch 4.7 -offset 0.5
add_pdn_connect -layers {metal1 metal4}
pdngen
",
    ),
    (
        "DESIGN d4 ; UNITS DISTANCE MICRONS 2000 ; DIEAREA ( -400 0 ) ( 22000 8400 ) ;
ROW r0 unit 0 0 N DO 55 BY 1 STEP 400 0 ;
ROW r1 unit 0 2800 FS DO 55 BY 1 STEP 400 0 ;
ROW r2 unit 0 5600 N DO 55 BY 1 STEP 400 0 ;
BLOCKAGES 1 ;
- LAYER + RECT ( 5395 6648 ) ( 7297 8095 ) ;
- LAYER metal1 RECT ( 4102 7021 ) ( 4808 7479 ) ;
- LAYER metal1 RECT ( 19912 849 ) ( 20975 1245 ) ;
END BLOCKAGES
END DESIGN
",
        "set_voltage_domain -power NEW -ground VSS
define_pdn_grid -name g
add_pdn_stripe -layer metal1 -width 0.17 -followpins
add_pdn_stripe -layer metal4 -width 0.228 -pitch 2.1 -offset 1.5 -nets {NEW}
add_pdn_connect -layers {metal1 metal4}
pdngen
",
    ),
    (
        "DESIGN d5 ; UNITS DISTANCE MICRONS 2000 ; DIEAREA ( -400 0 ) ( 18000 8400 ) ;
ROW r0 unit 0 0 N DO 45 BY 1 STEP 400 0 ;
ROW r1 unit 0 2800 FS DO 45 BY 1 STEP 400 0 ;
ROW r2 unit 0 5600 N DO 45 BY 1 STEP 400 0 ;
BLOCKAGES 1 ;
- LAYER metal1 RECT ( 5377 1925 ) ( 7298 2857 ) ;
- LAYER metal4 RECT ( 415 1197 ) ( 1590 2727 ) ;
- LAYER metal1 RECT ( 3056 5452 ) ( 3582 6768 ) ;
END BLOCKAGES
END DESIGN
",
        "set_voltage_domain -power VDD -ground +
define_pdn_grid -name g
add_pdn_stripe -layer metal1 -width 0.17 -followpins
add_pdn_stripe -layer metal4 -width 0.478 -pitch 2.0 -offset 0.5 -nets {VDD}
add_pdn_connect -layers {metal1 metal4}
add_pdn_ring -layers {+ metal4} -widths {0.402 0.5} -spacings 0.4 -core_offsets 0.6 -add_connect
pdngen
",
    ),
    (
        "DESIGN d6 ; UNITS DISTANCE MICRONS 2000 ; DIEAREA ( -400 0 ) ( 12000 2800 ) ;
ROW r0 unit 0 0 N DO 30 BY 1 STEP 400 0 ;
BLOCKAGES 1 ;
END BLOCKAGES
END DESIGN
",
        "set_voltage_domain -power END -ground (
define_pdn_grid -name g
add_pdn_stripe -layer metal1 -width 0.17 -followpins
add_pdn_stripe -layer metal4 -width 0.208 -pitch 3.2 -offset 1.5
add_pdn_connect -layers {metal1 metal4}
pdngen
",
    ),
    (
        "DESIGN d7 ; UNITS DISTANCE MICRONS 2000 ; DIEAREA ( -400 0 ) ( 17600 2800 ) ;
ROW r0 unit 0 0 N DO 44 BY 1 STEP 400 0 ;
BLOCKAGES 1 ;
END BLOCKAGES
END DESIGN
",
        "set_voltage_domain -power VSS -ground END
define_pdn_grid -name g
add_pdn_stripe -layer metal1 -width 0.17 -followpins
add_pdn_stripe -layer metal4 -width 0.240 -pitch 2.1 -offset 1.5 -nets {VSS}
add_pdn_connect -layers {metal1 metal4}
add_pdn_stripe -layer + -width 0.2 -pitch 2.8 -offset 0.7
add_pdn_connect -layers {+ metal4}
pdngen
",
    ),
    (
        "DESIGN d8 ; UNITS DISTANCE MICRONS 2000 ; DIEAREA ( -400 0 ) ( 11200 11200 ) ;
ROW r0 unit 0 0 N DO 28 BY 1 STEP 400 0 ;
ROW r1 unit 0 2800 FS DO 28 BY 1 STEP 400 0 ;
ROW r2 unit 0 5600 N DO 28 BY 1 STEP 400 0 ;
ROW r3 unit 0 8400 FS DO 28 BY 1 STEP 400 0 ;
BLOCKAGES 1 ;
END BLOCKAGES
END DESIGN
",
        "set_voltage_domain -power NEW -ground END
define_pdn_grid -name g
add_pdn_stripe -layer metal1 -width 0.17 -followpins
add_pdn_stripe -layer metal4 -width 0.140 -pitch 2.3 -offset 1.5
add_pdn_connect -layers {metal1 metal4}
pdngen
",
    ),
    (
        "DESIGN d9 ; UNITS DISTANCE MICRONS 2000 ; DIEAREA ( -400 0 ) ( 15200 2800 ) ;
ROW r0 unit 0 0 N DO 38 BY 1 STEP 400 0 ;
BLOCKAGES 1 ;
- LAYER metal4 RECT ( 10205 1221 ) ( 10499 2606 ) ;
END BLOCKAGES
END DESIGN
",
        "set_voltage_domain -power END -ground VDD
define_pdn_grid -name g
add_pdn_stripe -layer metal1 -width 0.17 -followpins
add_pdn_stripe -layer metal4 -width 0.142 -pitch 3.0 -offset 1.5
add_pdn_connect -layers {metal1 metal4}
add_pdn_ring -layers {+ metal4} -widths {0.284 0.5} -spacings 0.4 -core_offsets 0.6 -add_connect
pdngen
",
    ),
    (
        "DESIGN d10 ; UNITS DISTANCE MICRONS 2000 ; DIEAREA ( -400 0 ) ( 19600 11200 ) ;
ROW r0 unit 0 0 N DO 49 BY 1 STEP 400 0 ;
ROW r1 unit 0 2800 FS DO 49 BY 1 STEP 400 0 ;
ROW r2 unit 0 5600 N DO 49 BY 1 STEP 400 0 ;
ROW r3 unit 0 8400 FS DO 49 BY 1 STEP 400 0 ;
BLOCKAGES 1 ;
END BLOCKAGES
END DESIGN
",
        "set_voltage_domain -power VDD -ground (
define_pdn_grid -name g
add_pdn_stripe -layer metal1 -width 0.17 -followpins
add_pdn_stripe -layer metal4 -width 0.380 -pitch 2.0 -offset 0.5
add_pdn_connect -layers {metal1 metal4}
pdngen
",
    ),
    (
        "DESIGN d11 ; UNITS DISTANCE MICRONS 2000 ; DIEAREA ( -400 0 ) ( 8000 8400 ) ;
ROW r0 unit 0 0 N DO 20 BY 1 STEP 400 0 ;
ROW r1 unit 0 2800 FS DO 20 BY 1 STEP 400 0 ;
ROW r2 unit 0 5600 N DO 20 BY 1 STEP 400 0 ;
BLOCKAGES 1 ;
- LAYER metal4 RECT ( 2408 1636 ) ( 2412 1720 ) ;
END BLOCKAGES
END DESIGN
",
        "set_voltage_domain -power VSS -ground END
define_pdn_grid -name g
add_pdn_stripe -layer metal1 -width 0.17 -followpins
add_pdn_stripe -layer metal4 -width 0.456 -pitch 3.9 -offset 0.5
add_pdn_connect -layers {metal1 metal4}
pdngen
",
    ),
];
