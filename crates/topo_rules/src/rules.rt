ghost use Rattle.std.specs.Prelude.{◌≡◌, IfOk, None, Some, if◌then◌else◌};
ghost use Rattle.std.specs.Arc.{arc_value};
ghost use Rattle.std.specs.FinMap as map;
ghost use Rattle.std.specs.Option.{option_or};
ghost use Rattle.topo_rules.specs.Outcomes.{IsOutcome, edited, kind_by, made, name_by};
ghost use Rattle.topo_rules.specs.Maps.{joined};
ghost use Rattle.topo_rules.specs.Rules.{check_if_has_primary, me_differs as me_differs_lem, set_unknown, taken_name, placed, without, update_single as update_single_lem, update_unknown_with_standalone as update_unknown_with_standalone_lem, update_rs_without_primary as update_rs_without_primary_lem, update_rs_with_primary_from_member as update_rs_with_primary_from_member_lem, with_verdict as with_verdict_lem, update_rs_from_primary as update_rs_from_primary_lem, settled};

use crate::cell::Cell;
use crate::kinds::is_known;
use crate::maxima::Maxima;
use crate::outcome::{Edit, KindRule, Outcome};
use crate::primary::judged;
use crate::servers::Servers;
use crate::table::{Shared, unknown};
use crate::texts::{copy_text, me_differs, name_differs};
use crate::{Memory, TopoKind, Topology};
use bson_doc::Text;
use std::alloc::Global;
use std::sync::Arc;

/// The rules of SDAM, Updating the TopologyDescription, each with the name that it has in the standard's pseudo code. They
/// prepare what the new description makes of a topology, and leave the topology alone.
impl Topology {
    /// What the table's cell says.
    pub(crate) fn settle(
        &self,
        alloc: Global,
        cell: Cell,
        description: &Shared,
    ) -> Result<Outcome, Memory>
        ensures { IfOk result (IsOutcome self.now (arc_value description.now).host (settled cell (placed self.now (arc_value description.now)) (arc_value description.now))) }
    {
        match cell {
            Cell::UpdateSingle => self.update_single(alloc, description),
            Cell::Keep => self.keep(description, KindRule::Is(self.kind)),
            Cell::Remove => self.remove(alloc, description, KindRule::Is(self.kind)),
            Cell::UpdateUnknownWithStandalone => {
                self.update_unknown_with_standalone(alloc, description)
            }
            Cell::BecomeSharded => self.keep(description, KindRule::Is(TopoKind::Sharded)),
            Cell::BecomeWithPrimary => self.update_rs_from_primary(alloc, description),
            Cell::BecomeNoPrimary => {
                self.update_rs_without_primary(alloc, description, TopoKind::NoPrimary)
            }
            Cell::UpdateFromPrimary => self.update_rs_from_primary(alloc, description),
            Cell::UpdateWithoutPrimary => {
                self.update_rs_without_primary(alloc, description, self.kind)
            }
            Cell::UpdateWithPrimaryFromMember => {
                self.update_rs_with_primary_from_member(alloc, description)
            }
            Cell::CheckIfHasPrimary => self.keep(description, KindRule::ByPrimary),
            Cell::RemoveAndCheck => self.remove(alloc, description, KindRule::ByPrimary),
        }
    }

    /// The outcome of this edit, with the maxima as they are.
    fn with_edit(&self, edit: Edit, kind: KindRule, name: Option<Text>) -> Outcome
        ensures makes { made self.now result ≡ record self.now { kind = kind_by kind (edited self.now.servers edit); set_name = name_by self.now.set_name name; servers = edited self.now.servers edit } }
        ensures edit { result.edit ≡ edit }
    {
        Outcome {
            edit,
            kind,
            name,
            most: Maxima {
                election: self.max_election,
                version: self.max_set_version,
            },
        }
    }

    /// The description is kept.
    fn keep(&self, description: &Shared, kind: KindRule) -> Result<Outcome, Memory>
        ensures { IfOk result (IsOutcome self.now (arc_value description.now).host (record (placed self.now (arc_value description.now)) { kind = kind_by kind (placed self.now (arc_value description.now)).servers })) }
    {
        let description = Arc::try_clone(description)?;
        Ok(self.with_edit(Edit::Put(description), kind, None))
    }

    /// The server is removed.
    fn remove(&self, alloc: Global, description: &Shared, kind: KindRule) -> Result<Outcome, Memory>
        ensures { IfOk result (IsOutcome self.now (arc_value description.now).host (record (without (placed self.now (arc_value description.now)) (arc_value description.now).host) { kind = kind_by kind (without (placed self.now (arc_value description.now)) (arc_value description.now).host).servers })) }
    {
        let servers = self.servers.without(alloc, &description.host)?;
        Ok(self.with_edit(Edit::Whole(servers), kind, None))
    }

    /// A default Unknown stands at the description's host.
    fn set_unknown(
        &self,
        alloc: Global,
        description: &Shared,
        kind: KindRule,
        name: Option<Text>,
    ) -> Result<Outcome, Memory>
        ensures { IfOk result (IsOutcome self.now (arc_value description.now).host (record (set_unknown (placed self.now (arc_value description.now)) (arc_value description.now).host) { kind = kind_by kind (set_unknown (placed self.now (arc_value description.now)) (arc_value description.now).host).servers; set_name = name_by self.now.set_name name })) }
    {
        let description = unknown(alloc, &description.host)?;
        Ok(self.with_edit(Edit::Put(description), kind, name))
    }

    /// The set name, where it is taken: none where one is known.
    fn name_to_take(&self, alloc: Global, came: &Option<Text>) -> Result<Option<Text>, Memory>
        ensures { IfOk result (λ name. name_by self.now.set_name name ≡ option_or self.now.set_name came.now) }
    {
        if self.set_name.is_some() {
            return Ok(None);
        }
        copy_text(alloc, came)
    }

    /// The servers with the description and with each host that it lists, less its own host where `me` is another one.
    fn members(&self, alloc: Global, description: &Shared) -> Result<Servers, Memory>
        ensures { IfOk result (λ servers. servers ≡ (let all = joined (placed self.now (arc_value description.now)).servers (arc_value description.now).listed in if me_differs_lem (arc_value description.now) then map.remove all (arc_value description.now).host else all)) }
    {
        let placed = Arc::try_clone(description)?;
        let mut servers = self.servers.copy()?;
        servers.put(alloc, placed)?;
        let all = servers.joined(alloc, description.listed.as_slice())?;
        if me_differs(description) {
            return all.without(alloc, &description.host);
        }
        Ok(all)
    }

    /// TopologyType Single.
    fn update_single(&self, alloc: Global, description: &Shared) -> Result<Outcome, Memory>
        ensures { IfOk result (IsOutcome self.now (arc_value description.now).host (update_single_lem (placed self.now (arc_value description.now)) (arc_value description.now))) }
    {
        if is_known(description) && name_differs(&self.set_name, &description.set_name) {
            return self.set_unknown(alloc, description, KindRule::Is(self.kind), None);
        }
        self.keep(description, KindRule::Is(self.kind))
    }

    /// updateUnknownWithStandalone.
    fn update_unknown_with_standalone(
        &self,
        alloc: Global,
        description: &Shared,
    ) -> Result<Outcome, Memory>
        ensures { IfOk result (IsOutcome self.now (arc_value description.now).host (update_unknown_with_standalone_lem (placed self.now (arc_value description.now)) (arc_value description.now))) }
    {
        if self.seeds == 1 {
            return self.keep(description, KindRule::Is(TopoKind::Single));
        }
        self.remove(alloc, description, KindRule::Is(self.kind))
    }

    /// updateRSWithoutPrimary, in a topology that has this kind.
    fn update_rs_without_primary(
        &self,
        alloc: Global,
        description: &Shared,
        kind: TopoKind,
    ) -> Result<Outcome, Memory>
        ensures { IfOk result (IsOutcome self.now (arc_value description.now).host (update_rs_without_primary_lem (record (placed self.now (arc_value description.now)) { kind = kind }) (arc_value description.now))) }
    {
        if name_differs(&self.set_name, &description.set_name) {
            return self.remove(alloc, description, KindRule::Is(kind));
        }
        let name = self.name_to_take(alloc, &description.set_name)?;
        let servers = self.members(alloc, description)?;
        Ok(self.with_edit(Edit::Whole(servers), KindRule::Is(kind), name))
    }

    /// updateRSWithPrimaryFromMember.
    fn update_rs_with_primary_from_member(
        &self,
        alloc: Global,
        description: &Shared,
    ) -> Result<Outcome, Memory>
        ensures { IfOk result (IsOutcome self.now (arc_value description.now).host (update_rs_with_primary_from_member_lem (placed self.now (arc_value description.now)) (arc_value description.now))) }
    {
        if name_differs(&self.set_name, &description.set_name) || me_differs(description) {
            return self.remove(alloc, description, KindRule::ByPrimary);
        }
        self.keep(description, KindRule::ByPrimary)
    }

    /// updateRSFromPrimary.
    fn update_rs_from_primary(&self, alloc: Global, description: &Shared) -> Result<Outcome, Memory>
        ensures { IfOk result (IsOutcome self.now (arc_value description.now).host (update_rs_from_primary_lem (placed self.now (arc_value description.now)) (arc_value description.now))) }
    {
        if name_differs(&self.set_name, &description.set_name) {
            return self.remove(alloc, description, KindRule::ByPrimary);
        }
        let most = Maxima {
            election: self.max_election,
            version: self.max_set_version,
        };
        self.with_verdict(alloc, description, judged(description, most))
    }

    /// Of a stale primary a default Unknown stands; of another one the servers are those that it lists.
    fn with_verdict(
        &self,
        alloc: Global,
        description: &Shared,
        verdict: Option<Maxima>,
    ) -> Result<Outcome, Memory>
        ensures { IfOk result (IsOutcome self.now (arc_value description.now).host (check_if_has_primary (with_verdict_lem (taken_name (placed self.now (arc_value description.now)) (arc_value description.now).set_name) (arc_value description.now) verdict))) }
    {
        let name = self.name_to_take(alloc, &description.set_name)?;
        let Some(most) = verdict else {
            return self.set_unknown(alloc, description, KindRule::ByPrimary, name);
        };
        let servers = self.servers.of_primary(alloc, description)?;
        Ok(Outcome {
            edit: Edit::Whole(servers),
            kind: KindRule::ByPrimary,
            name,
            most,
        })
    }
}
