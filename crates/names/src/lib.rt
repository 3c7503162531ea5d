// The protocol's names of its frames.
#![tactic(auto)]

ghost use Rattle.std.specs.Prelude.{◌≡◌};
ghost use Rattle.std.specs.Option.{option_map};
ghost use Rattle.names.specs.Names.{message_name, nav_name, tim_name, rxm_name, ack_name, cfg_name, msg_name, mon_name, aid_name};

// The name of the frame of a class and an id, where the protocol has one.
pub fn message_name(class: u8, id: u8) -> Option<&'static str>
    ensures { option_map (λ x. x.now) result ≡ message_name class id }
{
    match class {
        0x01 => nav_name(id),
        0x02 => tim_name(id),
        0x03 => rxm_name(id),
        0x05 => ack_name(id),
        0x06 => cfg_name(id),
        0x08 => msg_name(id),
        0x0a => mon_name(id),
        0x0b => aid_name(id),
        _ => None,
    }
}

// A function for each class: one match of all pairs of class and id would be as long, and no plainer.
fn nav_name(id: u8) -> Option<&'static str>
    ensures { option_map (λ x. x.now) result ≡ nav_name id }
{
    match id {
        0x00 => Some("NAV-STATUS"),
        0x01 => Some("NAV-DOP"),
        0x02 => Some("NAV-SOL"),
        0x03 => Some("NAV-PV"),
        0x06 => Some("NAV-IMUATT"),
        0x10 => Some("NAV-TIMEUTC"),
        0x11 => Some("NAV-CLOCK"),
        0x20 => Some("NAV-GPSINFO"),
        0x21 => Some("NAV-BDSINFO"),
        0x22 => Some("NAV-GLNINFO"),
        _ => None,
    }
}

fn tim_name(id: u8) -> Option<&'static str>
    ensures { option_map (λ x. x.now) result ≡ tim_name id }
{
    match id {
        0x00 => Some("TIM-TP"),
        _ => None,
    }
}

fn rxm_name(id: u8) -> Option<&'static str>
    ensures { option_map (λ x. x.now) result ≡ rxm_name id }
{
    match id {
        0x07 => Some("RXM-SENSOR"),
        0x10 => Some("RXM-MEASX"),
        0x11 => Some("RXM-SVPOS"),
        _ => None,
    }
}

fn ack_name(id: u8) -> Option<&'static str>
    ensures { option_map (λ x. x.now) result ≡ ack_name id }
{
    match id {
        0x00 => Some("ACK-NACK"),
        0x01 => Some("ACK-ACK"),
        _ => None,
    }
}

fn cfg_name(id: u8) -> Option<&'static str>
    ensures { option_map (λ x. x.now) result ≡ cfg_name id }
{
    match id {
        0x00 => Some("CFG-PRT"),
        0x01 => Some("CFG-MSG"),
        0x02 => Some("CFG-RST"),
        0x03 => Some("CFG-TP"),
        0x04 => Some("CFG-RATE"),
        0x05 => Some("CFG-CFG"),
        0x06 => Some("CFG-TMODE"),
        0x07 => Some("CFG-NAVX"),
        0x08 => Some("CFG-GROUP"),
        0x10 => Some("CFG-INS"),
        _ => None,
    }
}

fn msg_name(id: u8) -> Option<&'static str>
    ensures { option_map (λ x. x.now) result ≡ msg_name id }
{
    match id {
        0x00 => Some("MSG-BDSUTC"),
        0x01 => Some("MSG-BDSION"),
        0x02 => Some("MSG-BDSEPH"),
        0x05 => Some("MSG-GPSUTC"),
        0x06 => Some("MSG-GPSION"),
        0x07 => Some("MSG-GPSEPH"),
        0x08 => Some("MSG-GLNEPH"),
        _ => None,
    }
}

fn mon_name(id: u8) -> Option<&'static str>
    ensures { option_map (λ x. x.now) result ≡ mon_name id }
{
    match id {
        0x04 => Some("MON-VER"),
        0x09 => Some("MON-HW"),
        _ => None,
    }
}

fn aid_name(id: u8) -> Option<&'static str>
    ensures { option_map (λ x. x.now) result ≡ aid_name id }
{
    match id {
        0x01 => Some("AID-INI"),
        0x03 => Some("AID-HUI"),
        _ => None,
    }
}
