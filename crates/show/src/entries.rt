// The tables of a plan, as they stand after the load.

use crate::lines::{ask, each, gpu, node, options, profile, quota};
use model::plan::Plan;
use model::sizes::{PROFILES, TENANTS};

pub fn tables(out: &mut [u8], at: usize, plan: &Plan) -> usize {
    let setting = &plan.setting;
    let to = each(out, at, &setting.sites, usize::from(setting.nodes), node);
    let to = each(out, to, &plan.gpus, usize::from(setting.gpus), gpu);
    let to = each(out, to, &setting.quotas, TENANTS, quota);
    let to = each(out, to, &setting.mosts, PROFILES, profile);
    let to = each(out, to, &plan.jobs, usize::from(setting.jobs), ask);
    options(out, to, &setting.options)
}
