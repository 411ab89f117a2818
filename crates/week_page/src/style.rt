ghost use Rattle.std.specs.Prelude.{◌≡◌, ◌++◌, OnOk};
ghost use Rattle.week_page.specs.Style.{style_text, base_style, table_style, mark_style, colour_style, print_style};

use std::alloc::AllocError;

/// Adds the style sheet.
#[tactic(auto, unfolding(crate::specs::Style::style_text))]
pub fn push_style(text: &mut Vec<u8>) -> Result<(), AllocError>
    ensures { OnOk result (text.new.items ≡ text.old.items ++ style_text) }
{
    push_base_style(text)?;
    push_table_style(text)?;
    push_mark_style(text)?;
    push_colour_style(text)?;
    push_print_style(text)?;
    Ok(())
}

#[tactic(auto, unfolding(crate::specs::Style::base_style))]
fn push_base_style(text: &mut Vec<u8>) -> Result<(), AllocError>
    ensures { OnOk result (text.new.items ≡ text.old.items ++ base_style) }
{
    text.extend_from_slice(
        b"body{margin:1rem;font:16px/1.35 system-ui,sans-serif;color:#111;background:#fff}\nh1{font-size:1.5rem;margin:0 0 .5rem;overflow-wrap:anywhere}\nh2{font-size:1.2rem;margin:1.5rem 0 .5rem}\ndiv{overflow-x:auto}\ntable{border-collapse:collapse}\nth,td{border:1px solid #888;padding:.25rem .4rem;text-align:left;vertical-align:top}\n",
    )?;
    Ok(())
}

#[tactic(auto, unfolding(crate::specs::Style::table_style))]
fn push_table_style(text: &mut Vec<u8>) -> Result<(), AllocError>
    ensures { OnOk result (text.new.items ≡ text.old.items ++ table_style) }
{
    text.extend_from_slice(
        b"thead th{background:#eee;white-space:nowrap}\ntr>:first-child{position:sticky;left:0;background:#eee;max-width:10rem;overflow-wrap:anywhere}\nb,small{display:block}\nb,i{overflow-wrap:anywhere}\nsmall{font-weight:normal;white-space:nowrap}\np{margin:0;padding:.15rem .3rem;border-left:.35rem solid #555;background:#f4f4f4}\np+p{margin-top:.25rem}\n",
    )?;
    Ok(())
}

#[tactic(auto, unfolding(crate::specs::Style::mark_style))]
fn push_mark_style(text: &mut Vec<u8>) -> Result<(), AllocError>
    ensures { OnOk result (text.new.items ≡ text.old.items ++ mark_style) }
{
    text.extend_from_slice(
        b"em{display:block;font-style:normal;font-weight:bold;color:#a00000}\n.x{outline:3px solid #a00000;outline-offset:-3px}\ntd span{display:inline-block;margin-right:1rem}\n.k0{background:#dceaff;border-color:#1f5fbf}\n.k1{background:#ffe3c7;border-color:#b35900}\n.k2{background:#d9f2d9;border-color:#1e7b1e}\n.k3{background:#ffdada;border-color:#b00020}\n",
    )?;
    Ok(())
}

#[tactic(auto, unfolding(crate::specs::Style::colour_style))]
fn push_colour_style(text: &mut Vec<u8>) -> Result<(), AllocError>
    ensures { OnOk result (text.new.items ≡ text.old.items ++ colour_style) }
{
    text.extend_from_slice(
        b".k4{background:#e9ddff;border-color:#6a3fc4}\n.k5{background:#f3e2d3;border-color:#7a4a1d}\n.k6{background:#ffdff2;border-color:#b3267e}\n.k7{background:#d3f3f3;border-color:#007a7a}\n.k8{background:#f3f3b8;border-color:#77770a}\n.k9{background:#e2e6ea;border-color:#3d4a57}\n",
    )?;
    Ok(())
}

#[tactic(auto, unfolding(crate::specs::Style::print_style))]
fn push_print_style(text: &mut Vec<u8>) -> Result<(), AllocError>
    ensures { OnOk result (text.new.items ≡ text.old.items ++ print_style) }
{
    text.extend_from_slice(
        b"@page{size:landscape;margin:10mm}\n@media print{\nbody{margin:0;font-size:9pt}\ndiv{overflow:visible}\nsection{break-after:page}\ntr{break-inside:avoid}\ntr>:first-child{position:static}\np,th,tr>:first-child{print-color-adjust:exact;-webkit-print-color-adjust:exact}\n}\n",
    )?;
    Ok(())
}
