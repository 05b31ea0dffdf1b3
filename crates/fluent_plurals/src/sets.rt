//! The sets of rules.
// Written by tools/plurals from the plural rules of Unicode CLDR 48. Do not edit.
ghost use Rattle.std.specs.Prelude.{◌≡◌};
ghost use Rattle.fluent_plurals.specs.Conditions.{category_by};
ghost use Rattle.fluent_plurals.specs.Sets.{cardinal_rules, ordinal_rules};

use crate::{cardinal, ordinal};
use fluent_number::{PluralCategory, PluralOperands};

/// The sets of rules for counts. Each is named after one of its languages.
#[derive(Clone, Copy, Debug, PartialEq, Eq)]
pub(crate) enum Cardinal {
    /// No rule: every number is `other`.
    Root,
    /// `am`, `as`, `bn`, `doi`, `fa`, `gu`, `hi`, `kn`, `kok`, `kok-Latn`, `pcm`, `zu`.
    Hi,
    /// `ff`, `hy`, `kab`.
    Ff,
    /// `ast`, `de`, `en`, `et`, `fi`, `fy`, `gl`, `ia`, `ie`, `io`, `ji`, `lij`, `nl`, `sc`, `sv`, `sw`,
    /// `ur`, `yi`.
    En,
    /// `si`.
    Si,
    /// `ak`, `bho`, `csw`, `guw`, `ln`, `mg`, `nso`, `pa`, `ti`, `wa`.
    Pa,
    /// `tzm`.
    Tzm,
    /// `af`, `an`, `asa`, `az`, `bal`, `bem`, `bez`, `bg`, `brx`, `ce`, `cgg`, `chr`, `ckb`, `dv`, `ee`,
    /// `el`, `eo`, `eu`, `fo`, `fur`, `gsw`, `ha`, `haw`, `hu`, `jgo`, `jmc`, `ka`, `kaj`, `kcg`, `kk`,
    /// `kkj`, `kl`, `ks`, `ksb`, `ku`, `ky`, `lb`, `lg`, `mas`, `mgo`, `ml`, `mn`, `mr`, `nah`, `nb`, `nd`,
    /// `ne`, `nn`, `nnh`, `no`, `nr`, `ny`, `nyn`, `om`, `or`, `os`, `pap`, `ps`, `rm`, `rof`, `rwk`, `saq`,
    /// `sd`, `sdh`, `seh`, `sn`, `so`, `sq`, `ss`, `ssy`, `st`, `syr`, `ta`, `te`, `teo`, `tig`, `tk`, `tn`,
    /// `tr`, `ts`, `ug`, `uz`, `ve`, `vo`, `vun`, `wae`, `xh`, `xog`.
    Tr,
    /// `da`.
    Da,
    /// `is`.
    Is,
    /// `mk`.
    Mk,
    /// `ceb`, `fil`, `tl`.
    Ceb,
    /// `lv`, `prg`.
    Lv,
    /// `lag`.
    Lag,
    /// `blo`, `cv`, `ksh`.
    Blo,
    /// `he`, `iw`.
    He,
    /// `iu`, `naq`, `sat`, `se`, `sma`, `smi`, `smj`, `smn`, `sms`.
    Iu,
    /// `shi`.
    Shi,
    /// `mo`, `ro`.
    Ro,
    /// `bs`, `hr`, `sh`, `sr`.
    Hr,
    /// `fr`.
    Fr,
    /// `pt`.
    Pt,
    /// `ca`, `it`, `lld`, `pt-PT`, `scn`, `vec`.
    It,
    /// `es`.
    Es,
    /// `gd`.
    Gd,
    /// `sl`.
    Sl,
    /// `dsb`, `hsb`.
    Dsb,
    /// `cs`, `sk`.
    Cs,
    /// `pl`.
    Pl,
    /// `be`.
    Be,
    /// `lt`.
    Lt,
    /// `ru`, `uk`.
    Ru,
    /// `sgs`.
    Sgs,
    /// `br`.
    Br,
    /// `mt`.
    Mt,
    /// `ga`.
    Ga,
    /// `gv`.
    Gv,
    /// `kw`.
    Kw,
    /// `ar`, `ars`.
    Ar,
    /// `cy`.
    Cy,
}

/// The sets of rules for places in an order. Each is named after one of its languages.
#[derive(Clone, Copy, Debug, PartialEq, Eq)]
pub(crate) enum Ordinal {
    /// No rule: every number is `other`.
    Root,
    /// `sv`.
    Sv,
    /// `bal`, `fil`, `fr`, `ga`, `hy`, `lo`, `mo`, `ms`, `ro`, `tl`, `vi`.
    Fr,
    /// `hu`.
    Hu,
    /// `ne`.
    Ne,
    /// `be`.
    Be,
    /// `uk`.
    Uk,
    /// `tk`.
    Tk,
    /// `kk`.
    Kk,
    /// `it`, `lld`, `sc`, `vec`.
    It,
    /// `lij`, `scn`.
    Lij,
    /// `ka`.
    Ka,
    /// `sq`.
    Sq,
    /// `kw`.
    Kw,
    /// `blo`.
    Blo,
    /// `en`.
    En,
    /// `kok`, `kok-Latn`, `mr`.
    Kok,
    /// `gd`.
    Gd,
    /// `ca`.
    Ca,
    /// `mk`.
    Mk,
    /// `az`.
    Az,
    /// `gu`, `hi`.
    Hi,
    /// `as`, `bn`.
    Bn,
    /// `or`.
    Or,
    /// `cy`.
    Cy,
}

impl Cardinal {
    /// The category of a number with these operands.
    pub(crate) fn category(self, operands: &PluralOperands) -> PluralCategory
        ensures { result ≡ category_by (cardinal_rules self) operands.now }
    {
        match self {
            Cardinal::Root => PluralCategory::OTHER,
            Cardinal::Hi => cardinal::hi(operands),
            Cardinal::Ff => cardinal::ff(operands),
            Cardinal::En => cardinal::en(operands),
            Cardinal::Si => cardinal::si(operands),
            Cardinal::Pa => cardinal::pa(operands),
            Cardinal::Tzm => cardinal::tzm(operands),
            Cardinal::Tr => cardinal::tr(operands),
            Cardinal::Da => cardinal::da(operands),
            Cardinal::Is => cardinal::is(operands),
            Cardinal::Mk => cardinal::mk(operands),
            Cardinal::Ceb => cardinal::ceb(operands),
            Cardinal::Lv => cardinal::lv(operands),
            Cardinal::Lag => cardinal::lag(operands),
            Cardinal::Blo => cardinal::blo(operands),
            Cardinal::He => cardinal::he(operands),
            Cardinal::Iu => cardinal::iu(operands),
            Cardinal::Shi => cardinal::shi(operands),
            Cardinal::Ro => cardinal::ro(operands),
            Cardinal::Hr => cardinal::hr(operands),
            Cardinal::Fr => cardinal::fr(operands),
            Cardinal::Pt => cardinal::pt(operands),
            Cardinal::It => cardinal::it(operands),
            Cardinal::Es => cardinal::es(operands),
            Cardinal::Gd => cardinal::gd(operands),
            Cardinal::Sl => cardinal::sl(operands),
            Cardinal::Dsb => cardinal::dsb(operands),
            Cardinal::Cs => cardinal::cs(operands),
            Cardinal::Pl => cardinal::pl(operands),
            Cardinal::Be => cardinal::be(operands),
            Cardinal::Lt => cardinal::lt(operands),
            Cardinal::Ru => cardinal::ru(operands),
            Cardinal::Sgs => cardinal::sgs(operands),
            Cardinal::Br => cardinal::br(operands),
            Cardinal::Mt => cardinal::mt(operands),
            Cardinal::Ga => cardinal::ga(operands),
            Cardinal::Gv => cardinal::gv(operands),
            Cardinal::Kw => cardinal::kw(operands),
            Cardinal::Ar => cardinal::ar(operands),
            Cardinal::Cy => cardinal::cy(operands),
        }
    }
}

impl Ordinal {
    /// The category of a number with these operands.
    pub(crate) fn category(self, operands: &PluralOperands) -> PluralCategory
        ensures { result ≡ category_by (ordinal_rules self) operands.now }
    {
        match self {
            Ordinal::Root => PluralCategory::OTHER,
            Ordinal::Sv => ordinal::sv(operands),
            Ordinal::Fr => ordinal::fr(operands),
            Ordinal::Hu => ordinal::hu(operands),
            Ordinal::Ne => ordinal::ne(operands),
            Ordinal::Be => ordinal::be(operands),
            Ordinal::Uk => ordinal::uk(operands),
            Ordinal::Tk => ordinal::tk(operands),
            Ordinal::Kk => ordinal::kk(operands),
            Ordinal::It => ordinal::it(operands),
            Ordinal::Lij => ordinal::lij(operands),
            Ordinal::Ka => ordinal::ka(operands),
            Ordinal::Sq => ordinal::sq(operands),
            Ordinal::Kw => ordinal::kw(operands),
            Ordinal::Blo => ordinal::blo(operands),
            Ordinal::En => ordinal::en(operands),
            Ordinal::Kok => ordinal::kok(operands),
            Ordinal::Gd => ordinal::gd(operands),
            Ordinal::Ca => ordinal::ca(operands),
            Ordinal::Mk => ordinal::mk(operands),
            Ordinal::Az => ordinal::az(operands),
            Ordinal::Hi => ordinal::hi(operands),
            Ordinal::Bn => ordinal::bn(operands),
            Ordinal::Or => ordinal::or(operands),
            Ordinal::Cy => ordinal::cy(operands),
        }
    }
}
