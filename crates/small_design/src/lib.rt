//! The small design, over the technology and the cells of the made-up designs: what tests of several layers read and write.
#![tactic(auto)]

/// The small design: a row of cells and one cell.
pub const DESIGN: &[u8] = b"VERSION 5.8 ;
DESIGN small ;
UNITS DISTANCE MICRONS 2000 ;
DIEAREA ( 0 0 ) ( 8000 2800 ) ;
ROW r0 unit 0 0 N DO 20 BY 1 STEP 400 0 ;
COMPONENTS 1 ;
- u1 C0 + PLACED ( 2400 0 ) N ;
END COMPONENTS
END DESIGN
";

/// Its grid as DEF, worked out by hand: a rail and a strap for each of the nets VDD and VSS, and a stack where they cross.
pub const WRITTEN: &[u8] = b"VERSION 5.8 ;
DIVIDERCHAR \"/\" ;
BUSBITCHARS \"[]\" ;
DESIGN small ;
UNITS DISTANCE MICRONS 2000 ;
DIEAREA ( 0 0 ) ( 8000 2800 ) ;
VIAS 3 ;
- pdn_1_3_1 + VIARULE Via1Array + CUTSIZE 140 140 + LAYERS metal1 via1 metal2 + CUTSPACING 160 160 + ENCLOSURE 70 0 0 70 + ROWCOL 1 3 ;
- pdn_2_3_1 + VIARULE Via2Array + CUTSIZE 140 140 + LAYERS metal2 via2 metal3 + CUTSPACING 160 160 + ENCLOSURE 0 70 70 0 + ROWCOL 1 3 ;
- pdn_3_3_1 + VIARULE Via3Array + CUTSIZE 140 140 + LAYERS metal3 via3 metal4 + CUTSPACING 160 160 + ENCLOSURE 70 0 0 70 + ROWCOL 1 3 ;
END VIAS
SPECIALNETS 2 ;
- VDD + USE POWER
+ ROUTED metal1 340 + SHAPE FOLLOWPIN ( 0 2800 ) ( 8000 2800 )
NEW metal4 960 + SHAPE STRIPE ( 6000 -170 ) ( 6000 2970 )
NEW metal1 0 + SHAPE STRIPE ( 6000 2800 ) pdn_1_3_1
NEW metal2 0 + SHAPE STRIPE ( 6000 2800 ) pdn_2_3_1
NEW metal3 0 + SHAPE STRIPE ( 6000 2800 ) pdn_3_3_1
;
- VSS + USE GROUND
+ ROUTED metal1 340 + SHAPE FOLLOWPIN ( 0 0 ) ( 8000 0 )
NEW metal4 960 + SHAPE STRIPE ( 2000 -170 ) ( 2000 2970 )
NEW metal1 0 + SHAPE STRIPE ( 2000 0 ) pdn_1_3_1
NEW metal2 0 + SHAPE STRIPE ( 2000 0 ) pdn_2_3_1
NEW metal3 0 + SHAPE STRIPE ( 2000 0 ) pdn_3_3_1
;
END SPECIALNETS
END DESIGN
";
