//! The commands of a script.
ghost use Rattle.std.specs.Prelude.{◌≡◌};
ghost use Rattle.script_options.specs.Command.{command_named as named};

use reading::keyword_or;

/// What the first word of a command says.
#[derive(Clone, Copy, Debug, PartialEq, Eq)]
pub enum Command {
    /// `set_voltage_domain`
    SetVoltageDomain,
    /// `define_pdn_grid`
    DefinePdnGrid,
    /// `add_pdn_stripe`
    AddPdnStripe,
    /// `add_pdn_ring`
    AddPdnRing,
    /// `add_pdn_connect`
    AddPdnConnect,
    /// `pdngen`
    Pdngen,
    /// `add_global_connection` or `global_connect`, which are passed over to their end.
    PassedOver,
    /// Any other word.
    Unknown,
}

/// The command of this name.
pub fn command_named(text: &[u8]) -> Command
    ensures { result ≡ named text.now }
{
    keyword_or!(text;
        b"set_voltage_domain" => Command::SetVoltageDomain, b"define_pdn_grid" => Command::DefinePdnGrid,
        b"add_pdn_stripe" => Command::AddPdnStripe, b"add_pdn_ring" => Command::AddPdnRing,
        b"add_pdn_connect" => Command::AddPdnConnect, b"pdngen" => Command::Pdngen,
        b"add_global_connection" => Command::PassedOver, b"global_connect" => Command::PassedOver;
        Command::Unknown)
}
