//! Components (RFC 7265, section 3.3): a name, properties, and the components in it.
ghost use Rattle.std.specs.Prelude.{◌≡◌, [], ◌∷◌, ◌++◌, OnOk};
ghost use Rattle.jcal.specs.TreeTokens.{component_begin, components_begin, component_end};

use json::Writer;
use td_base::NoMemory;

/// Begins a component: its name, and the list of its properties.
pub(crate) fn begin_component(out: &mut Writer, name: &str) -> Result<(), NoMemory>
    ensures tokens { OnOk result
        (out.new.tokens ≡ out.old.tokens ++ component_begin name.now) }
    ensures before { out.new.before ≡ out.old.before }
{
    out.begin_array()?;
    out.string(name)?;
    out.begin_array()?;
    Ok(())
}

/// Ends the properties of a component, and begins the list of the components in it.
pub(crate) fn begin_components(out: &mut Writer) -> Result<(), NoMemory>
    ensures tokens { OnOk result (out.new.tokens ≡ out.old.tokens ++ components_begin) }
    ensures before { out.new.before ≡ out.old.before }
{
    out.end_array()?;
    out.begin_array()?;
    Ok(())
}

/// Ends the components in a component, and this one.
pub(crate) fn end_component(out: &mut Writer) -> Result<(), NoMemory>
    ensures tokens { OnOk result (out.new.tokens ≡ out.old.tokens ++ component_end) }
    ensures before { out.new.before ≡ out.old.before }
{
    out.end_array()?;
    out.end_array()?;
    Ok(())
}
