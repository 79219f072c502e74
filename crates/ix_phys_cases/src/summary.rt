//! A physical netlist in one line.

use ix_num::NameId;
use ix_rec::{
    BranchKind, CellPlacement, Forest, NetType, Phys, PhysNet, PinMapping, Property, Segment,
    SiteInstance,
};
use ix_strings::Names;
use std::alloc::AllocError;

/// The text of a name.
fn name_of(names: &Names, id: NameId) -> &str {
    if id.get() < names.len() {
        names.name(id)
    } else {
        "?"
    }
}

/// Writes names, each with a blank before it.
fn put_names(text: &mut String, names: &Names, ids: &[NameId]) -> Result<(), AllocError> {
    for id in ids {
        text.push_str(" ")?;
        text.push_str(name_of(names, *id))?;
    }
    Ok(())
}

fn put_pins(text: &mut String, names: &Names, pins: &[PinMapping]) -> Result<(), AllocError> {
    for pin in pins {
        text.push_str(" (")?;
        put_names(text, names, &[pin.cell_pin, pin.bel, pin.bel_pin])?;
        text.push_str(" )")?;
    }
    Ok(())
}

fn put_placements(
    text: &mut String,
    names: &Names,
    placements: &[CellPlacement],
) -> Result<(), AllocError> {
    for p in placements {
        text.push_str("; cell")?;
        put_names(text, names, &[p.cell_name, p.ty, p.site, p.bel])?;
        put_pins(text, names, p.pin_map.as_slice())?;
    }
    Ok(())
}

fn word_of_kind(kind: BranchKind) -> &'static str {
    match kind {
        BranchKind::BelPin => "bel-pin",
        BranchKind::SitePin => "site-pin",
        BranchKind::Pip => "pip",
        BranchKind::SitePip => "site-pip",
    }
}

fn put_branch(
    text: &mut String,
    names: &Names,
    depth: u32,
    segment: &Segment,
) -> Result<(), AllocError> {
    let word = word_of_kind(segment.kind);
    write!(text, " ({depth} {word}")?;
    put_names(text, names, &[segment.first, segment.second])?;
    if segment.kind != BranchKind::SitePin {
        put_names(text, names, &[segment.third])?;
    }
    if segment.forward {
        text.push_str(" forward")?;
    }
    text.push_str(")")
}

fn put_forest(text: &mut String, names: &Names, forest: &Forest) -> Result<(), AllocError> {
    for branch in forest.as_slice() {
        put_branch(text, names, branch.depth, &branch.item)?;
    }
    Ok(())
}

fn word_of_type(ty: NetType) -> &'static str {
    match ty {
        NetType::Signal => "signal",
        NetType::Gnd => "gnd",
        NetType::Vcc => "vcc",
    }
}

fn put_nets(text: &mut String, names: &Names, nets: &[PhysNet]) -> Result<(), AllocError> {
    for net in nets {
        text.push_str("; net")?;
        put_names(text, names, &[net.name])?;
        let word = word_of_type(net.ty);
        write!(text, " {word}")?;
        put_forest(text, names, &net.sources)?;
        text.push_str(" stubs")?;
        put_forest(text, names, &net.stubs)?;
    }
    Ok(())
}

fn put_sites(text: &mut String, names: &Names, sites: &[SiteInstance]) -> Result<(), AllocError> {
    for site in sites {
        text.push_str("; site")?;
        put_names(text, names, &[site.site, site.ty])?;
    }
    Ok(())
}

fn put_properties(
    text: &mut String,
    names: &Names,
    properties: &[Property],
) -> Result<(), AllocError> {
    for property in properties {
        text.push_str("; property")?;
        put_names(text, names, &[property.key, property.value])?;
    }
    Ok(())
}

/// Writes a netlist.
pub fn put_netlist(text: &mut String, names: &Names, phys: &Phys) -> Result<(), AllocError> {
    text.push_str("part")?;
    put_names(text, names, &[phys.part])?;
    put_placements(text, names, phys.placements.as_slice())?;
    put_nets(text, names, phys.nets.as_slice())?;
    put_sites(text, names, phys.site_insts.as_slice())?;
    put_properties(text, names, phys.properties.as_slice())
}

/// Writes how many segments the sources of all nets have, and how deep the deepest one is.
pub fn put_chain(text: &mut String, phys: &Phys) -> Result<(), AllocError> {
    let mut many = 0usize;
    let mut deepest = 0u32;
    for net in phys.nets.as_slice() {
        many = many.saturating_add(net.sources.len());
        for branch in net.sources.as_slice() {
            deepest = deepest.max(branch.depth);
        }
    }
    write!(text, "{many} segments, the deepest at {deepest}")
}
