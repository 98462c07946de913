//! The texts that are the same for every number and side.

/// The technology: seven routing layers, six cut layers, and a rule of arrays of cuts for each neighbouring pair.
pub const TECHNOLOGY: &[u8] = b"VERSION 5.8 ;
UNITS
  DATABASE MICRONS 2000 ;
END UNITS
LAYER metal1
  TYPE ROUTING ;
  DIRECTION HORIZONTAL ;
  PITCH 0.14 ;
  WIDTH 0.07 ;
  SPACING 0.065 ;
  RESISTANCE RPERSQ 0.38 ;
  DCCURRENTDENSITY AVERAGE 10 ;
END metal1
LAYER via1
  TYPE CUT ;
  RESISTANCE 5 ;
  DCCURRENTDENSITY AVERAGE 100 ;
END via1
LAYER metal2
  TYPE ROUTING ;
  DIRECTION VERTICAL ;
  PITCH 0.14 ;
  WIDTH 0.07 ;
  SPACING 0.065 ;
  RESISTANCE RPERSQ 0.25 ;
  DCCURRENTDENSITY AVERAGE 10 ;
END metal2
LAYER via2
  TYPE CUT ;
  RESISTANCE 5 ;
  DCCURRENTDENSITY AVERAGE 100 ;
END via2
LAYER metal3
  TYPE ROUTING ;
  DIRECTION HORIZONTAL ;
  PITCH 0.14 ;
  WIDTH 0.07 ;
  SPACING 0.065 ;
  RESISTANCE RPERSQ 0.25 ;
  DCCURRENTDENSITY AVERAGE 10 ;
END metal3
LAYER via3
  TYPE CUT ;
  RESISTANCE 5 ;
  DCCURRENTDENSITY AVERAGE 100 ;
END via3
LAYER metal4
  TYPE ROUTING ;
  DIRECTION VERTICAL ;
  PITCH 0.28 ;
  WIDTH 0.14 ;
  SPACING 0.14 ;
  RESISTANCE RPERSQ 0.21 ;
  DCCURRENTDENSITY AVERAGE 10 ;
END metal4
LAYER via4
  TYPE CUT ;
  RESISTANCE 3 ;
  DCCURRENTDENSITY AVERAGE 100 ;
END via4
LAYER metal5
  TYPE ROUTING ;
  DIRECTION HORIZONTAL ;
  PITCH 0.28 ;
  WIDTH 0.14 ;
  SPACING 0.14 ;
  RESISTANCE RPERSQ 0.21 ;
  DCCURRENTDENSITY AVERAGE 10 ;
END metal5
LAYER via5
  TYPE CUT ;
  RESISTANCE 3 ;
  DCCURRENTDENSITY AVERAGE 100 ;
END via5
LAYER metal6
  TYPE ROUTING ;
  DIRECTION VERTICAL ;
  PITCH 0.28 ;
  WIDTH 0.14 ;
  SPACING 0.14 ;
  RESISTANCE RPERSQ 0.21 ;
  DCCURRENTDENSITY AVERAGE 10 ;
END metal6
LAYER via6
  TYPE CUT ;
  RESISTANCE 3 ;
  DCCURRENTDENSITY AVERAGE 100 ;
END via6
LAYER metal7
  TYPE ROUTING ;
  DIRECTION HORIZONTAL ;
  PITCH 0.8 ;
  WIDTH 0.4 ;
  SPACING 0.4 ;
  RESISTANCE RPERSQ 0.075 ;
  DCCURRENTDENSITY AVERAGE 10 ;
END metal7
VIARULE Via1Array GENERATE
  LAYER metal1 ;
  ENCLOSURE 0 0.035 ;
  LAYER metal2 ;
  ENCLOSURE 0 0.035 ;
  LAYER via1 ;
  RECT -0.035 -0.035 0.035 0.035 ;
  SPACING 0.15 BY 0.15 ;
END Via1Array
VIARULE Via2Array GENERATE
  LAYER metal2 ;
  ENCLOSURE 0 0.035 ;
  LAYER metal3 ;
  ENCLOSURE 0 0.035 ;
  LAYER via2 ;
  RECT -0.035 -0.035 0.035 0.035 ;
  SPACING 0.15 BY 0.15 ;
END Via2Array\nVIARULE Via3Array GENERATE
  LAYER metal3 ;
  ENCLOSURE 0 0.035 ;
  LAYER metal4 ;
  ENCLOSURE 0 0.035 ;
  LAYER via3 ;
  RECT -0.035 -0.035 0.035 0.035 ;
  SPACING 0.15 BY 0.15 ;
END Via3Array
VIARULE Via4Array GENERATE
  LAYER metal4 ;
  ENCLOSURE 0 0 ;
  LAYER metal5 ;
  ENCLOSURE 0 0 ;
  LAYER via4 ;
  RECT -0.07 -0.07 0.07 0.07 ;
  SPACING 0.30 BY 0.30 ;
END Via4Array
VIARULE Via5Array GENERATE
  LAYER metal5 ;
  ENCLOSURE 0 0 ;
  LAYER metal6 ;
  ENCLOSURE 0 0 ;
  LAYER via5 ;
  RECT -0.07 -0.07 0.07 0.07 ;
  SPACING 0.30 BY 0.30 ;
END Via5Array
VIARULE Via6Array GENERATE
  LAYER metal6 ;
  ENCLOSURE 0 0 ;
  LAYER metal7 ;
  ENCLOSURE 0 0 ;
  LAYER via6 ;
  RECT -0.07 -0.07 0.07 0.07 ;
  SPACING 0.30 BY 0.30 ;
END Via6Array
END LIBRARY
";

/// The cells: one site, and four macros of one size.
pub const CELLS: &[u8] = b"VERSION 5.8 ;
SITE unit
  SIZE 0.2 BY 1.4 ;
END unit
MACRO C0
  CLASS CORE ;
  SIZE 1.4 BY 1.4 ;
END C0
MACRO C1
  CLASS CORE ;
  SIZE 1.4 BY 1.4 ;
END C1
MACRO C2
  CLASS CORE ;
  SIZE 1.4 BY 1.4 ;
END C2
MACRO C3
  CLASS CORE ;
  SIZE 1.4 BY 1.4 ;
END C3
END LIBRARY
";

/// The script: one domain, rails on metal1, straps on metal4 and metal7, and a grid over macros, of which the design has none.
pub const SCRIPT: &[u8] =
    b"add_global_connection -net {VDD} -inst_pattern {.*} -pin_pattern {^VDD$} -power
add_global_connection -net {VSS} -inst_pattern {.*} -pin_pattern {^VSS$} -ground
global_connect
set_voltage_domain -name {CORE} -power {VDD} -ground {VSS}
define_pdn_grid -name {grid} -voltage_domains {CORE}
add_pdn_stripe -grid {grid} -layer {metal1} -width {0.17} -pitch {2.4} -offset {0} -followpins
add_pdn_stripe -grid {grid} -layer {metal4} -width {0.48} -pitch {56.0} -offset {2}
add_pdn_stripe -grid {grid} -layer {metal7} -width {1.40} -pitch {40.0} -offset {2}
add_pdn_connect -grid {grid} -layers {metal1 metal4}
add_pdn_connect -grid {grid} -layers {metal4 metal7}
define_pdn_grid -name {macros} -voltage_domains {CORE} -macro -orient {R0 R180 MX MY} -halo {2.0 2.0 2.0 2.0} -default -grid_over_boundary
pdngen
";

/// The first lines of the bias file: supplies, drop limits and the currents of the cells.
pub(crate) const SUPPLIES: &[u8] = b"supply VDD 1.1
supply VSS 0
droplimit VDD 0.1
droplimit VSS 0.1
cell C0 0.25u
cell C1 0.5u
cell C2 0.75u
cell C3 1u
";

/// The first lines of the design.
pub(crate) const UNITS: &[u8] =
    b"VERSION 5.8 ;\nDESIGN generated ;\nUNITS DISTANCE MICRONS 2000 ;\n";

/// Its last lines.
pub(crate) const END: &[u8] = b"END COMPONENTS\nEND DESIGN\n";
